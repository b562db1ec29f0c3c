//! A call of this library that the program doesn't make. It stands for other callers.

ghost use Rattle.pv_productive.specs.PlainForms.{dtd_of};
ghost use Rattle.pv_tree.specs.PlainDocs.{plain_doc};
ghost use Rattle.pv_fresh.specs.Answers.{CountsFewLists, CountsLists, FindsCause, FindsNarrow};
ghost use Rattle.pv_fresh.specs.Answers.{FindsPossible, FindsVerdicts};

use crate::check::{count_lists, find_verdicts};
use crate::errors::FreshError;
use pv_missing::Verdicts;
use pv_productive::Grammar;
use pv_steps::Steps;
use pv_tree::Doc;
use std::alloc::Global;
use std::sync::ledger::Ledger;

/// The verdicts of all lists of a document, in document order, and the path of the first Impossible
/// one. There is none exactly where the document is potentially valid.
///
/// The widths of all lists come first, and take no memory but for a path. Then the rules of the
/// grammar are laid out, once for all lists. Where there are no verdicts, no list is counted.
pub fn check_doc<L: Ledger>(
    alloc: Global,
    grammar: &Grammar,
    root: &[u8],
    doc: &Doc,
    steps: &mut Steps<L>,
) -> Result<Verdicts, FreshError>
    ensures verdicts { FindsVerdicts (dtd_of grammar.now) root.now (plain_doc doc.now) result }
    ensures possible { FindsPossible (dtd_of grammar.now) root.now (plain_doc doc.now) result }
    ensures narrow { FindsNarrow (dtd_of grammar.now) (plain_doc doc.now) result }
    ensures refused { FindsCause (dtd_of grammar.now) (plain_doc doc.now) result }
    ensures steps { CountsLists (plain_doc doc.now) steps.old steps.new result }
    ensures few_steps { CountsFewLists (plain_doc doc.now) steps.old steps.new }
{
    let verdicts = find_verdicts(alloc, grammar, root, doc)?;
    count_lists(verdicts.len(), steps);
    Ok(verdicts)
}
