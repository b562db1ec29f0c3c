//! The least number of missing elements of a document.

ghost use Rattle.std.specs.Prelude.{◌≡◌, ◌<◌, IfErr, IfOk};
ghost use Rattle.pv_productive.specs.PlainForms.{dtd_of};
ghost use Rattle.pv_tree.specs.PlainDocs.{plain_doc};
ghost use Rattle.pv_complete.specs.KnownWeights.{AreKnown};
ghost use Rattle.pv_complete.specs.NeededElements.{AreLiveVerdicts, HasCause, Needs, WeighsIn};

use crate::errors::NeedError;
use crate::missing::known::KnownWeights;
use crate::missing::load::Load;
use crate::missing::weighing::weigh_list;
use crate::missing::widths::first_wide_list;
use pv_dtd::laws::proper_dtd_law;
use pv_fresh::{PossibleError, owner_under, possible_verdicts};
use pv_missing::Verdicts;
use pv_missing::laws::proper::proper_doc_law;
use pv_productive::Grammar;
use pv_rules::HEAVIEST;
use pv_span::{ColumnLayout, SpanError};
use pv_tables::laws::possible_weights_law;
use pv_tree::{Doc, Lists, Mark};
use std::alloc::Global;

/// The verdicts of the lists of a document that isn't impossible.
pub(crate) fn live_verdicts(
    alloc: Global,
    grammar: &Grammar,
    root: &[u8],
    doc: &Doc,
) -> Result<Verdicts, NeedError>
    ensures verdicts { IfOk result (λ verdicts. AreLiveVerdicts (dtd_of grammar.now) root.now
        (plain_doc doc.now) verdicts.verdicts) }
    ensures refused { IfErr result (HasCause (dtd_of grammar.now) root.now (plain_doc doc.now)) }
{
    match possible_verdicts(alloc, grammar, root, doc) {
        Ok(verdicts) => Ok(verdicts),
        Err(PossibleError::TooWide(path)) => Err(NeedError::TooWide(path)),
        Err(PossibleError::Impossible(path)) => Err(NeedError::Impossible(path)),
        Err(PossibleError::NoMemory) => Err(NeedError::NoMemory),
    }
}

/// The weights of the Possible lists of a document whose lists have these verdicts, none of them
/// Impossible, added up and cut. No table is made where a list is too wide for one.
fn total_weight(
    alloc: Global,
    layout: &ColumnLayout<'_>,
    root: &[u8],
    doc: &Doc,
    verdicts: &Verdicts,
    known: &mut KnownWeights,
) -> Result<u32, NeedError>
    requires { AreKnown (dtd_of layout.now.grammar.now) known.old }
    ensures total { IfOk result (λ total. AreLiveVerdicts (dtd_of layout.now.grammar.now) root.now
        (plain_doc doc.now) verdicts.now.verdicts →
        WeighsIn (dtd_of layout.now.grammar.now) root.now (plain_doc doc.now) total) }
    ensures refused { IfErr result (λ error. AreLiveVerdicts (dtd_of layout.now.grammar.now)
        root.now (plain_doc doc.now) verdicts.now.verdicts →
        HasCause (dtd_of layout.now.grammar.now) root.now (plain_doc doc.now) error) }
    ensures known { AreKnown (dtd_of layout.now.grammar.now) known.new }
{
    possible_weights_law::<Mark>();
    proper_dtd_law(layout.grammar.dtd());
    proper_doc_law(doc);
    if let Some(path) = first_wide_list(alloc, layout.grammar.dtd(), doc, verdicts)? {
        return Err(NeedError::TooWide(path));
    }
    let mut load = Load::new();
    let mut lists = Lists::of(alloc, doc);
    while let Some(list) = lists.next()? {
        let owner = owner_under(layout.grammar, root, list.owner);
        match weigh_list(alloc, layout, owner, list.kids, verdicts, known, &mut load) {
            Ok(()) => {}
            Err(SpanError::TooWide) => return Err(NeedError::TooWide(lists.path(alloc)?)),
            Err(SpanError::NoMemory) => return Err(NeedError::NoMemory),
        }
    }
    Ok(load.total)
}

/// The least number of elements whose insertion makes a document valid, under a grammar that is
/// laid out, by the verdicts of its lists.
///
/// A list that is Valid takes no table of weights, nor does one whose weight is known. Tables are
/// made one at a time, and let go.
pub(crate) fn need_under(
    alloc: Global,
    layout: &ColumnLayout<'_>,
    root: &[u8],
    doc: &Doc,
    verdicts: &Verdicts,
    known: &mut KnownWeights,
) -> Result<u64, NeedError>
    requires { AreKnown (dtd_of layout.now.grammar.now) known.old }
    ensures needs { IfOk result (λ n. AreLiveVerdicts (dtd_of layout.now.grammar.now) root.now
        (plain_doc doc.now) verdicts.now.verdicts →
        Needs (dtd_of layout.now.grammar.now) root.now (plain_doc doc.now) n) }
    ensures refused { IfErr result (λ error. AreLiveVerdicts (dtd_of layout.now.grammar.now)
        root.now (plain_doc doc.now) verdicts.now.verdicts →
        HasCause (dtd_of layout.now.grammar.now) root.now (plain_doc doc.now) error) }
    ensures known { AreKnown (dtd_of layout.now.grammar.now) known.new }
{
    known.make_room(verdicts.len());
    let total = total_weight(alloc, layout, root, doc, verdicts, known)?;
    if total < HEAVIEST {
        Ok(u64::from(total))
    } else {
        Err(NeedError::TooHeavy)
    }
}
