//! A least completion of a document with its tables: all that a pack has.

ghost use Rattle.std.specs.Prelude.{◌≡◌, ◌<◌, IfErr, IfOk};
ghost use Rattle.pv_productive.specs.PlainForms.{dtd_of};
ghost use Rattle.pv_tree.specs.PlainDocs.{plain_doc};
ghost use Rattle.pv_tree.specs.Prolog.{IsProlog};
ghost use Rattle.pv_complete.specs.LeastCompletions.{IsLeastCompletion};
ghost use Rattle.pv_complete.specs.GrownTrees.{IsBounded, IsGrownText};
ghost use Rattle.pv_complete.specs.KnownWeights.{AreKnown};
ghost use Rattle.pv_complete.specs.NeededElements.{AreLiveVerdicts, HasVerdicts};
ghost use Rattle.pv_complete.specs.Tables.{HasTables, HasTablesCause};

use crate::errors::NeedError;
use crate::listings::making::{TabledNeed, tables_under};
use crate::missing::known::KnownWeights;
use crate::missing::needing::live_verdicts;
use crate::writing::completion::{Completion, completion_under};
use pv_missing::Verdicts;
use pv_productive::Grammar;
use pv_span::{ColumnLayout, Tables, lay_out};
use pv_tree::Doc;
use std::alloc::Global;

/// A least completion of a document, and its tables.
#[derive(Debug, Drop)]
pub struct TabledCompletion {
    /// The completion.
    pub completion: Completion,
    /// The tables, by which a stranger can see that no fewer elements are missing.
    pub tables: Tables,
}

/// A least completion of a document with its tables, under a grammar that is laid out, by the
/// verdicts of its lists. The tables are made before the body.
fn tabled_under(
    alloc: Global,
    layout: &ColumnLayout<'_>,
    root: &[u8],
    doc: &Doc,
    verdicts: &Verdicts,
    known: &mut KnownWeights,
) -> Result<TabledCompletion, NeedError>
    requires known { AreKnown (dtd_of layout.now.grammar.now) known.old }
    requires names { IsProlog root.now (plain_doc doc.now).before }
    requires verdicts { ∥ AreLiveVerdicts (dtd_of layout.now.grammar.now) root.now
        (plain_doc doc.now) verdicts.now.verdicts ∥₁ }
    ensures completed { IfOk result (λ made. AreLiveVerdicts (dtd_of layout.now.grammar.now)
        root.now (plain_doc doc.now) verdicts.now.verdicts →
        IsLeastCompletion (dtd_of layout.now.grammar.now) root.now (plain_doc doc.now)
        made.completion.count made.completion.marks made.completion.body) }
    ensures written { IfOk result (λ made. AreLiveVerdicts (dtd_of layout.now.grammar.now) root.now
        (plain_doc doc.now) verdicts.now.verdicts →
        IsGrownText (plain_doc doc.now) made.completion.body) }
    ensures bounded { IfOk result (λ made. AreLiveVerdicts (dtd_of layout.now.grammar.now) root.now
        (plain_doc doc.now) verdicts.now.verdicts →
        IsBounded (plain_doc doc.now) made.completion.count made.completion.body) }
    ensures tables { IfOk result (λ made. AreLiveVerdicts (dtd_of layout.now.grammar.now) root.now
        (plain_doc doc.now) verdicts.now.verdicts →
        HasTables (dtd_of layout.now.grammar.now) root.now (plain_doc doc.now) made.tables) }
    ensures refused { IfErr result (λ error. AreLiveVerdicts (dtd_of layout.now.grammar.now)
        root.now (plain_doc doc.now) verdicts.now.verdicts →
        HasTablesCause (dtd_of layout.now.grammar.now) root.now (plain_doc doc.now) error) }
{
    let TabledNeed { count, tables } = tables_under(alloc, layout, root, doc, verdicts, known)?;
    let completion = completion_under(alloc, layout, root, doc, verdicts, known, count)?;
    Ok(TabledCompletion { completion, tables })
}

/// A least completion of a document with its tables, by the verdicts of its lists.
fn tabled_by(
    alloc: Global,
    grammar: &Grammar,
    root: &[u8],
    doc: &Doc,
    verdicts: &Verdicts,
) -> Result<TabledCompletion, NeedError>
    requires names { IsProlog root.now (plain_doc doc.now).before }
    requires verdicts { ∥ AreLiveVerdicts (dtd_of grammar.now) root.now (plain_doc doc.now)
        verdicts.now.verdicts ∥₁ }
    ensures completed { IfOk result (λ made. AreLiveVerdicts (dtd_of grammar.now) root.now
        (plain_doc doc.now) verdicts.now.verdicts →
        IsLeastCompletion (dtd_of grammar.now) root.now (plain_doc doc.now) made.completion.count
        made.completion.marks made.completion.body) }
    ensures written { IfOk result (λ made. AreLiveVerdicts (dtd_of grammar.now) root.now
        (plain_doc doc.now) verdicts.now.verdicts →
        IsGrownText (plain_doc doc.now) made.completion.body) }
    ensures bounded { IfOk result (λ made. AreLiveVerdicts (dtd_of grammar.now) root.now
        (plain_doc doc.now) verdicts.now.verdicts →
        IsBounded (plain_doc doc.now) made.completion.count made.completion.body) }
    ensures tables { IfOk result (λ made. AreLiveVerdicts (dtd_of grammar.now) root.now
        (plain_doc doc.now) verdicts.now.verdicts →
        HasTables (dtd_of grammar.now) root.now (plain_doc doc.now) made.tables) }
    ensures refused { IfErr result (λ error. AreLiveVerdicts (dtd_of grammar.now) root.now
        (plain_doc doc.now) verdicts.now.verdicts →
        HasTablesCause (dtd_of grammar.now) root.now (plain_doc doc.now) error) }
{
    let layout = lay_out(alloc, grammar)?;
    let mut known = KnownWeights::with_tables(alloc);
    tabled_under(alloc, &layout, root, doc, verdicts, &mut known)
}

/// A least completion of a document with its tables: what `complete` and `tables` give, in one. The
/// refusals are those of `tables`.
///
/// The verdicts of the lists are found once, and the grammar is laid out once.
pub fn complete_with_tables(
    alloc: Global,
    grammar: &Grammar,
    root: &[u8],
    doc: &Doc,
) -> Result<TabledCompletion, NeedError>
    requires names { IsProlog root.now (plain_doc doc.now).before }
    ensures completed { IfOk result (λ made. IsLeastCompletion (dtd_of grammar.now)
        root.now (plain_doc doc.now) made.completion.count made.completion.marks
        made.completion.body) }
    ensures written { IfOk result (λ made. IsGrownText (plain_doc doc.now)
        made.completion.body) }
    ensures bounded { IfOk result (λ made. IsBounded (plain_doc doc.now) made.completion.count
        made.completion.body) }
    ensures tables { IfOk result (λ made. HasTables (dtd_of grammar.now) root.now
        (plain_doc doc.now) made.tables) }
    ensures judged { IfOk result (λ _.
        HasVerdicts (dtd_of grammar.now) root.now (plain_doc doc.now)) }
    ensures refused { IfErr result (HasTablesCause (dtd_of grammar.now)
        root.now (plain_doc doc.now)) }
{
    let verdicts = live_verdicts(alloc, grammar, root, doc)?;
    tabled_by(alloc, grammar, root, doc, &verdicts)
}
