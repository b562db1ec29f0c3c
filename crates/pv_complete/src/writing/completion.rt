//! A least completion of a document.

ghost use Rattle.std.specs.Prelude.{IfErr, IfOk, ◌<◌, ◌≡◌, ◌^◌};
ghost use Rattle.std.specs.List.{All};
ghost use Rattle.pv_productive.specs.PlainForms.{dtd_of};
ghost use Rattle.pv_tree.specs.PlainDocs.{plain_doc};
ghost use Rattle.pv_tree.specs.Prolog.{IsProlog};
ghost use Rattle.pv_complete.specs.LeastCompletions.{IsLeastCompletion};
ghost use Rattle.pv_complete.specs.GrownTrees.{IsBounded, IsGrownText};
ghost use Rattle.pv_complete.specs.KnownWeights.{AreKnown};
ghost use Rattle.pv_complete.specs.NeededElements.{AreLiveVerdicts, HasCause, Needs};

use crate::errors::NeedError;
use crate::missing::known::KnownWeights;
use crate::missing::needing::need_under;
use crate::writing::by_verdict::pieces_of_lists;
use pv_chars::{Bytes, NoMemory, Numbers};
use pv_dtd::laws::proper_dtd_law;
use pv_missing::Verdicts;
use pv_missing::laws::documents::{bounds_add_up_law, locality_law, tags_extend_law};
use pv_missing::laws::lists::weight_is_least_law;
use pv_missing::laws::proper::proper_doc_law;
use pv_productive::Grammar;
use pv_span::{ColumnLayout, lay_out};
use pv_tables::laws::{live_weight_law, possible_weights_law};
use pv_tree::{Doc, Mark};
use pv_write::doc_with_tags;
use pv_write::laws::every_view_is_written_law;
use std::alloc::Global;

/// A least completion of a document.
#[derive(Debug, Drop)]
pub struct Completion {
    /// How many elements are new.
    pub count: u64,
    /// Their numbers in the body, in document order, the root having the number 0.
    pub marks: Numbers,
    /// The text of the completed document.
    pub body: Bytes,
}

// The numbers, which are as few as those of elements.
fn numbers_of(alloc: Global, marks: &[u64]) -> Result<Vec<u32>, NoMemory>
    requires { All (λ mark. mark < 2 ^ 32) marks.now }
    ensures { IfOk result (λ numbers. numbers.items ≡ marks.now) }
{
    let mut numbers = Vec::with_capacity(alloc, marks.len())?;
    for mark in marks {
        numbers.push(*mark as u32)?;
    }
    Ok(numbers)
}

/// A least completion of a document under a grammar that is laid out, by the verdicts of its lists.
pub(crate) fn complete_under(
    alloc: Global,
    layout: &ColumnLayout<'_>,
    root: &[u8],
    doc: &Doc,
    verdicts: &Verdicts,
    known: &mut KnownWeights,
) -> Result<Completion, NeedError>
    requires known { AreKnown (dtd_of layout.now.grammar.now) known.old }
    requires names { IsProlog root.now (plain_doc doc.now).before }
    requires verdicts { ∥ AreLiveVerdicts (dtd_of layout.now.grammar.now) root.now
        (plain_doc doc.now) verdicts.now.verdicts ∥₁ }
    ensures completed { IfOk result (λ c. AreLiveVerdicts (dtd_of layout.now.grammar.now) root.now
        (plain_doc doc.now) verdicts.now.verdicts →
        IsLeastCompletion (dtd_of layout.now.grammar.now) root.now (plain_doc doc.now) c.count
        c.marks c.body) }
    ensures written { IfOk result (λ c. AreLiveVerdicts (dtd_of layout.now.grammar.now) root.now
        (plain_doc doc.now) verdicts.now.verdicts → IsGrownText (plain_doc doc.now) c.body) }
    ensures bounded { IfOk result (λ c. AreLiveVerdicts (dtd_of layout.now.grammar.now) root.now
        (plain_doc doc.now) verdicts.now.verdicts → IsBounded (plain_doc doc.now) c.count c.body) }
    ensures refused { IfErr result (λ error. AreLiveVerdicts (dtd_of layout.now.grammar.now)
        root.now (plain_doc doc.now) verdicts.now.verdicts →
        HasCause (dtd_of layout.now.grammar.now) root.now (plain_doc doc.now) error) }
    ensures known { AreKnown (dtd_of layout.now.grammar.now) known.new }
{
    let count = need_under(alloc, layout, root, doc, verdicts, known)?;
    let completion = completion_under(alloc, layout, root, doc, verdicts, known, count)?;
    Ok(completion)
}

/// A least completion of a document, by the verdicts of its lists, none of which is Impossible or
/// too wide for one: the text of a valid document that is this one with as few elements as can be
/// inserted. The document stays as it is.
///
/// New elements are written as `<NAME>` and `</NAME>`, and all else as it is, but that an
/// empty-element tag that gets content becomes a pair of tags. The body is at most twice as long as
/// the document, and 517 bytes for each new element. The refusals are those of `need_remembering`.
/// One walk weighs the lists, one finds their pieces, and one writes them.
pub fn complete_by(
    alloc: Global,
    grammar: &Grammar,
    root: &[u8],
    doc: &Doc,
    verdicts: &Verdicts,
) -> Result<Completion, NeedError>
    requires names { IsProlog root.now (plain_doc doc.now).before }
    requires verdicts { ∥ AreLiveVerdicts (dtd_of grammar.now) root.now (plain_doc doc.now)
        verdicts.now.verdicts ∥₁ }
    ensures completed { IfOk result (λ c. AreLiveVerdicts (dtd_of grammar.now) root.now
        (plain_doc doc.now) verdicts.now.verdicts →
        IsLeastCompletion (dtd_of grammar.now) root.now (plain_doc doc.now) c.count c.marks
        c.body) }
    ensures written { IfOk result (λ c. AreLiveVerdicts (dtd_of grammar.now) root.now
        (plain_doc doc.now) verdicts.now.verdicts → IsGrownText (plain_doc doc.now) c.body) }
    ensures bounded { IfOk result (λ c. AreLiveVerdicts (dtd_of grammar.now) root.now
        (plain_doc doc.now) verdicts.now.verdicts → IsBounded (plain_doc doc.now) c.count c.body) }
    ensures refused { IfErr result (λ error. AreLiveVerdicts (dtd_of grammar.now) root.now
        (plain_doc doc.now) verdicts.now.verdicts →
        HasCause (dtd_of grammar.now) root.now (plain_doc doc.now) error) }
{
    let layout = lay_out(alloc, grammar)?;
    let mut known = KnownWeights::with_pieces(alloc);
    complete_under(alloc, &layout, root, doc, verdicts, &mut known)
}

/// A least completion of a document that misses so many elements, under a grammar that is laid out,
/// by the verdicts of its lists. Pieces that are known aren't put together again.
pub(crate) fn completion_under(
    alloc: Global,
    layout: &ColumnLayout<'_>,
    root: &[u8],
    doc: &Doc,
    verdicts: &Verdicts,
    known: &KnownWeights,
    count: u64,
) -> Result<Completion, NoMemory>
    requires known { AreKnown (dtd_of layout.now.grammar.now) known.now }
    requires names { IsProlog root.now (plain_doc doc.now).before }
    requires verdicts { ∥ AreLiveVerdicts (dtd_of layout.now.grammar.now) root.now
        (plain_doc doc.now) verdicts.now.verdicts ∥₁ }
    requires needs { AreLiveVerdicts (dtd_of layout.now.grammar.now) root.now (plain_doc doc.now)
        verdicts.now.verdicts →
        Needs (dtd_of layout.now.grammar.now) root.now (plain_doc doc.now) count }
    ensures completed { IfOk result (λ c. AreLiveVerdicts (dtd_of layout.now.grammar.now) root.now
        (plain_doc doc.now) verdicts.now.verdicts →
        IsLeastCompletion (dtd_of layout.now.grammar.now) root.now (plain_doc doc.now) c.count
        c.marks c.body) }
    ensures written { IfOk result (λ c. AreLiveVerdicts (dtd_of layout.now.grammar.now) root.now
        (plain_doc doc.now) verdicts.now.verdicts → IsGrownText (plain_doc doc.now) c.body) }
    ensures bounded { IfOk result (λ c. AreLiveVerdicts (dtd_of layout.now.grammar.now) root.now
        (plain_doc doc.now) verdicts.now.verdicts → IsBounded (plain_doc doc.now) c.count c.body) }
{
    every_view_is_written_law();
    tags_extend_law();
    possible_weights_law::<Mark>();
    live_weight_law::<Mark>();
    weight_is_least_law::<Mark>();
    bounds_add_up_law::<Mark>();
    locality_law::<Mark>();
    proper_dtd_law(layout.grammar.dtd());
    proper_doc_law(doc);
    let lists = pieces_of_lists(alloc, layout, root, doc, verdicts, known)?;
    let text = doc_with_tags(alloc, layout.grammar.dtd(), &lists, doc)?;
    let marks = numbers_of(alloc, text.marks.as_slice())?;
    Ok(Completion {
        count,
        marks: Numbers::of(marks),
        body: Bytes::of(text.body),
    })
}
