//! The check of a whole document by several threads.

ghost use Rattle.std.specs.Prelude.{◌≡◌, ◌<◌, ℕ, IfErr, IfOk, MatchOption, OnErr, OnOk, length};
ghost use Rattle.std.specs.List.{AllByRecursion};
ghost use Rattle.pv_dtd.specs.PlainForms.{plain_dtd};
ghost use Rattle.pv_productive.specs.PlainForms.{dtd_of};
ghost use Rattle.pv_tree.specs.Lists.{lists_of};
ghost use Rattle.pv_tree.specs.PlainDocs.{plain_doc};
ghost use Rattle.pv_missing.specs.Verdicts.{AreVerdicts};
ghost use Rattle.pv_missing.specs.Widths.{IsFirstTooWide, IsListForVerdict};
ghost use Rattle.pv_fresh.specs.Answers.{CountsFewLists, CountsLists, FindsCause, FindsNarrow};
ghost use Rattle.pv_fresh.specs.Answers.{FindsPossible, FindsVerdicts, HasCause};
ghost use Rattle.pv_parallel.specs.Sizes.{HasFewTokens};

use crate::gate::Gate;
use crate::gathering::jobs_of;
use crate::judging::{join_judged, judge_jobs};
use crate::sizes::has_few_nodes;
use pv_chars::NoMemory;
use pv_dtd::Dtd;
use pv_dtd::laws::proper_dtd_law;
use pv_fresh::{FreshError, count_lists, first_too_wide, with_first};
use pv_missing::laws::documents::live_lists_law;
use pv_missing::laws::proper::proper_doc_law;
use pv_missing::{Verdicts, is_narrow};
use pv_productive::Grammar;
use pv_reach::{Judge, Plan};
use pv_steps::Steps;
use pv_tree::{Doc, Mark, Path, Verdict, first_invalid};
use std::alloc::Global;
use std::sync::ledger::Ledger;
use std::thread::Threads;

/// What `check_doc` answers, found by as many threads as there are processors. Of several wants of
/// memory any may come. Where there are no verdicts, no list is counted. The gate is told the
/// number of each list. The call lays out a plan of the grammar, but where the document is found to
/// be valid in less time; who has one asks `check_doc_par_by`.
pub fn check_doc_par<G: Gate + Sync, L: Ledger>(
    rt: &(impl Threads + Sync),
    alloc: Global,
    grammar: &Grammar,
    root: &[u8],
    doc: &Doc,
    gate: &G,
    steps: &mut Steps<L>,
) -> Result<Verdicts, FreshError>
    ensures verdicts { FindsVerdicts (dtd_of grammar.now) root.now (plain_doc doc.now) result }
    ensures possible { FindsPossible (dtd_of grammar.now) root.now (plain_doc doc.now) result }
    ensures narrow { FindsNarrow (dtd_of grammar.now) (plain_doc doc.now) result }
    ensures refused { FindsCause (dtd_of grammar.now) (plain_doc doc.now) result }
    ensures steps { CountsLists (plain_doc doc.now) steps.old steps.new result }
    ensures few_steps { CountsFewLists (plain_doc doc.now) steps.old steps.new }
    ensures uncounted { OnErr result (steps.new ≡ steps.old) }
    ensures entered { OnOk result ((k : ℕ) → k < length (lists_of (plain_doc doc.now)) →
        G.entered gate.now k) }
{
    if is_valid_and_small(alloc, grammar.dtd(), root, doc)? {
        let judge = Judge::without_plan(alloc, grammar);
        return check_doc_par_by(rt, &judge, root, doc, gate, steps);
    }
    let plan = Plan::of(alloc, grammar)?;
    let judge = Judge::new(alloc, grammar, &plan);
    check_doc_par_by(rt, &judge, root, doc, gate, steps)
}

// Whether the document is valid, where it has no more nodes than the DTD has columns: to find that
// takes a small part of the time that a plan takes. The verdicts of a valid document rarely need
// one.
fn is_valid_and_small(alloc: Global, dtd: &Dtd, root: &[u8], doc: &Doc) -> Result<bool, NoMemory> {
    if !has_few_nodes(&doc.root, dtd.columns()) {
        return Ok(false);
    }
    let invalid = first_invalid(alloc, dtd, root, doc)?;
    Ok(invalid.is_none())
}

/// The check of a document by several threads, by a grammar whose rules are laid out.
pub fn check_doc_par_by<G: Gate + Sync, L: Ledger>(
    rt: &(impl Threads + Sync),
    judge: &Judge<'_>,
    root: &[u8],
    doc: &Doc,
    gate: &G,
    steps: &mut Steps<L>,
) -> Result<Verdicts, FreshError>
    ensures verdicts { FindsVerdicts (dtd_of judge.now) root.now (plain_doc doc.now) result }
    ensures possible { FindsPossible (dtd_of judge.now) root.now (plain_doc doc.now) result }
    ensures narrow { FindsNarrow (dtd_of judge.now) (plain_doc doc.now) result }
    ensures refused { FindsCause (dtd_of judge.now) (plain_doc doc.now) result }
    ensures steps { CountsLists (plain_doc doc.now) steps.old steps.new result }
    ensures few_steps { CountsFewLists (plain_doc doc.now) steps.old steps.new }
    ensures uncounted { OnErr result (steps.new ≡ steps.old) }
    ensures entered { OnOk result ((k : ℕ) → k < length (lists_of (plain_doc doc.now)) →
        G.entered gate.now k) }
{
    live_lists_law::<Mark>();
    proper_dtd_law(judge.grammar().dtd());
    proper_doc_law(doc);
    let verdicts = judge_lists(rt, judge, root, doc, gate)?;
    let found = with_first(judge.alloc(), doc, verdicts)?;
    count_lists(found.len(), steps);
    Ok(found)
}

// The verdicts of all lists, none of which is too wide.
fn judge_lists<G: Gate + Sync>(
    rt: &(impl Threads + Sync),
    judge: &Judge<'_>,
    root: &[u8],
    doc: &Doc,
    gate: &G,
) -> Result<Vec<Verdict>, FreshError>
    ensures verdicts { IfOk result (λ vs. AreVerdicts (dtd_of judge.now) root.now
        (lists_of (plain_doc doc.now)) vs.items) }
    ensures as_many { IfOk result (λ vs. length vs.items ≡ length (lists_of (plain_doc doc.now))) }
    ensures narrow { OnOk result (AllByRecursion (IsListForVerdict (dtd_of judge.now))
        (lists_of (plain_doc doc.now))) }
    ensures refused { IfErr result (HasCause (dtd_of judge.now) (plain_doc doc.now)) }
    ensures entered { OnOk result ((k : ℕ) → k < length (lists_of (plain_doc doc.now)) →
        G.entered gate.now k) }
{
    let alloc = judge.alloc();
    let (jobs, longest) = jobs_of(alloc, doc)?;
    if let Some(path) = first_wide(alloc, judge.grammar().dtd(), doc, longest)? {
        return Err(FreshError::TooWide(path));
    }
    let judged = judge_jobs(rt, judge, root, &jobs, gate)?;
    let verdicts = join_judged(alloc, &judged)?;
    Ok(verdicts)
}

// The path of the first list that is too wide, where none has more tokens than so many. The
// document is looked at again only where so many are too many.
fn first_wide(alloc: Global, dtd: &Dtd, doc: &Doc, longest: usize) -> Result<Option<Path>, NoMemory>
    requires { AllByRecursion (HasFewTokens longest) (lists_of (plain_doc doc.now)) }
    ensures { IfOk result (λ found. MatchOption found
        (AllByRecursion (IsListForVerdict (plain_dtd dtd.now)) (lists_of (plain_doc doc.now)))
        (IsFirstTooWide (plain_dtd dtd.now) (lists_of (plain_doc doc.now)))) }
{
    if is_narrow(dtd, longest as u64) {
        return Ok(None);
    }
    first_too_wide(alloc, dtd, doc)
}
