//! The check of a whole document.

ghost use Rattle.std.specs.Prelude.{◌≡◌, ◌+◌, IfOk};
ghost use Rattle.std.specs.List.{AllByRecursion};
ghost use Rattle.pv_productive.specs.PlainForms.{dtd_of};
ghost use Rattle.pv_tree.specs.Lists.{lists_of};
ghost use Rattle.pv_tree.specs.PlainDocs.{plain_doc};
ghost use Rattle.pv_missing.specs.Verdicts.{HaveVerdicts};
ghost use Rattle.pv_missing.specs.Widths.{IsListForVerdict};
ghost use Rattle.pv_fresh.specs.Answers.{FindsCause, FindsNarrow};
ghost use Rattle.pv_fresh.specs.Answers.{FindsPossible, FindsVerdicts};

use crate::errors::FreshError;
use crate::firsts::with_first;
use crate::judging::judge_lists;
use crate::widths::first_too_wide;
use pv_chars::NoMemory;
use pv_dtd::laws::proper_dtd_law;
use pv_missing::Verdicts;
use pv_missing::laws::documents::live_lists_law;
use pv_missing::laws::proper::proper_doc_law;
use pv_productive::Grammar;
use pv_reach::{Judge, Plan};
use pv_steps::Steps;
use pv_tree::{Doc, Mark};
use std::alloc::Global;
use std::sync::ledger::Ledger;

// The verdicts of all lists of a document, of which none is too wide, and the path of the first
// Impossible one.
fn verdicts_by(judge: &Judge<'_>, root: &[u8], doc: &Doc) -> Result<Verdicts, NoMemory>
    requires { AllByRecursion (IsListForVerdict (dtd_of judge.now)) (lists_of (plain_doc doc.now)) }
    ensures { IfOk result (HaveVerdicts (dtd_of judge.now) root.now (lists_of (plain_doc doc.now))) }
{
    let verdicts = judge_lists(judge, root, doc)?;
    with_first(judge.alloc(), doc, verdicts)
}

// Lays out the rules of a grammar, once for all lists of a document.
fn verdicts_under(
    alloc: Global,
    grammar: &Grammar,
    root: &[u8],
    doc: &Doc,
) -> Result<Verdicts, NoMemory>
    requires { AllByRecursion (IsListForVerdict (dtd_of grammar.now))
        (lists_of (plain_doc doc.now)) }
    ensures { IfOk result (HaveVerdicts (dtd_of grammar.now) root.now
        (lists_of (plain_doc doc.now))) }
{
    let plan = Plan::of(alloc, grammar)?;
    let judge = Judge::new(alloc, grammar, &plan);
    verdicts_by(&judge, root, doc)
}

/// The verdicts of all lists of a document, in document order, and the path of the first Impossible
/// one, on no counter.
///
/// The widths of all lists come first, and take no memory but for a path. Then the rules of the
/// grammar are laid out, once for all lists.
pub fn find_verdicts(
    alloc: Global,
    grammar: &Grammar,
    root: &[u8],
    doc: &Doc,
) -> Result<Verdicts, FreshError>
    ensures verdicts { FindsVerdicts (dtd_of grammar.now) root.now (plain_doc doc.now) result }
    ensures possible { FindsPossible (dtd_of grammar.now) root.now (plain_doc doc.now) result }
    ensures narrow { FindsNarrow (dtd_of grammar.now) (plain_doc doc.now) result }
    ensures refused { FindsCause (dtd_of grammar.now) (plain_doc doc.now) result }
{
    live_lists_law::<Mark>();
    proper_dtd_law(grammar.dtd());
    proper_doc_law(doc);
    if let Some(path) = first_too_wide(alloc, grammar.dtd(), doc)? {
        return Err(FreshError::TooWide(path));
    }
    let verdicts = verdicts_under(alloc, grammar, root, doc)?;
    Ok(verdicts)
}

/// Takes one step for each of so many lists.
pub fn count_lists<L: Ledger>(count: u64, steps: &mut Steps<L>)
    ensures { steps.new ≡ steps.old + count }
{
    for _list in 0..count {
        steps.tick();
    }
}
