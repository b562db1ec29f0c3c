//! Calls of this library that the program doesn't make. They stand for other callers.
//!
//! Each finds the verdicts of a document's lists, and then does what the program does by verdicts
//! that it has.

ghost use Rattle.std.specs.Prelude.{◌≡◌, ℕ, IfErr, IfOk};
ghost use Rattle.pv_productive.specs.PlainForms.{dtd_of};
ghost use Rattle.pv_tree.specs.PlainDocs.{plain_doc};
ghost use Rattle.pv_tree.specs.Prolog.{IsProlog};
ghost use Rattle.pv_complete.specs.LeastCompletions.{IsLeastCompletion};
ghost use Rattle.pv_complete.specs.GrownTrees.{IsBounded, IsGrownText};
ghost use Rattle.pv_complete.specs.NeededElements.{HasCause, HasVerdicts, Needs};
ghost use Rattle.pv_complete.specs.Tables.{HasTables, HasTablesCause};
ghost use Rattle.pv_complete.specs.declared.errors.NeedError.TheVariants.{NoMemory as no_memory};

use crate::errors::NeedError;
use crate::listings::making::tables_under;
use crate::missing::known::KnownWeights;
use crate::missing::needing::{live_verdicts, need_under};
use crate::writing::completion::{Completion, complete_by};
use pv_missing::laws::documents::live_lists_law;
use pv_missing::laws::proper::proper_doc_law;
use pv_productive::Grammar;
use pv_span::{Tables, lay_out};
use pv_tree::{Doc, Mark};
use std::alloc::Global;

/// The least number of elements whose insertion makes a document valid. The document stays as it
/// is.
///
/// The grammar is laid out once for all lists, and lists of one owner and one word are weighed
/// once.
pub fn need(alloc: Global, grammar: &Grammar, root: &[u8], doc: &Doc) -> Result<u64, NeedError>
    ensures needs { IfOk result (Needs (dtd_of grammar.now) root.now (plain_doc doc.now)) }
    ensures refused { IfErr result (HasCause (dtd_of grammar.now) root.now (plain_doc doc.now)) }
{
    let verdicts = live_verdicts(alloc, grammar, root, doc)?;
    let layout = lay_out(alloc, grammar)?;
    let mut known = KnownWeights::none(alloc);
    need_under(alloc, &layout, root, doc, &verdicts, &mut known)
}

/// A least completion of a document, as `complete_by` makes it. The refusals are those of `need`.
pub fn complete(
    alloc: Global,
    grammar: &Grammar,
    root: &[u8],
    doc: &Doc,
) -> Result<Completion, NeedError>
    requires names { IsProlog root.now (plain_doc doc.now).before }
    ensures completed { IfOk result (λ c. IsLeastCompletion (dtd_of grammar.now)
        root.now (plain_doc doc.now) c.count c.marks c.body) }
    ensures written { IfOk result (λ c. IsGrownText (plain_doc doc.now) c.body) }
    ensures bounded { IfOk result (λ c. IsBounded (plain_doc doc.now) c.count c.body) }
    ensures judged { IfOk result (λ _.
        HasVerdicts (dtd_of grammar.now) root.now (plain_doc doc.now)) }
    ensures refused { IfErr result (HasCause (dtd_of grammar.now) root.now (plain_doc doc.now)) }
    ensures succeeds { (n : ℕ) → Needs (dtd_of grammar.now) root.now (plain_doc doc.now) n →
        IfErr result (λ e. e ≡ no_memory) }
{
    live_lists_law::<Mark>();
    proper_doc_law(doc);
    let verdicts = live_verdicts(alloc, grammar, root, doc)?;
    complete_by(alloc, grammar, root, doc, &verdicts)
}

/// The weights of each Possible list of a document, in document order, by which a stranger can see
/// that no fewer elements are missing. The document stays as it is.
///
/// They have an entry for each site and span of a list whose weight is at most 1,000,000. `TooMany`
/// says that there would be more than 8,388,608 entries in all; of other causes the one that `need`
/// tells is told first.
pub fn tables(alloc: Global, grammar: &Grammar, root: &[u8], doc: &Doc) -> Result<Tables, NeedError>
    ensures tables { IfOk result (HasTables (dtd_of grammar.now) root.now (plain_doc doc.now)) }
    ensures refused { IfErr result (HasTablesCause (dtd_of grammar.now)
        root.now (plain_doc doc.now)) }
{
    let verdicts = live_verdicts(alloc, grammar, root, doc)?;
    let layout = lay_out(alloc, grammar)?;
    let mut known = KnownWeights::none(alloc);
    let told = tables_under(alloc, &layout, root, doc, &verdicts, &mut known)?;
    Ok(told.tables)
}
