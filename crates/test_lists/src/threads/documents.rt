//! The document of a drill, checked by several threads.

ghost use Rattle.std.specs.Prelude.{◌≡◌, ◌<◌};

use pv_drill::{drill_doc, drill_dtd};
use pv_dtd::read_dtd;
use pv_fresh::check_doc;
use pv_missing::Verdicts;
use pv_parallel::{Gate, check_doc_par, check_doc_par_by};
use pv_productive::{Grammar, build};
use pv_reach::{Judge, Plan};
use pv_read::read_doc;
use pv_steps::Steps;
use pv_tree::Doc;
use std::alloc::{AllocError, Global};
use std::marker::Brand;
use std::sync::atomic::{AtomicU64, Ordering};
use std::sync::ledger::{Blank, Ledger};
use std::test::Fail;
use std::thread::Threads;

// Counts how often each number is told.
#[derive(Drop)]
struct Told {
    counts: Vec<AtomicU64>,
}

impl Gate for Told {
    ghost use Rattle.std.specs.Prelude.{⊤};

    ghost entered = { λ _ _. ⊤ };

    fn enter(&self, number: u64) {
        if let Some(count) = self.counts.get(number as usize) {
            count.fetch_add(1, Ordering::SeqCst);
        }
    }
}

// Waits in the first list until a second one is entered, which another thread has to do.
#[derive(Drop)]
struct Second {
    entered: AtomicU64,
    met: AtomicU64,
}

impl Gate for Second {
    ghost use Rattle.std.specs.Prelude.{⊤};

    ghost entered = { λ _ _. ⊤ };

    fn enter(&self, _number: u64) {
        if self.entered.fetch_add(1, Ordering::SeqCst) > 0 {
            return;
        }
        for _ in 0..1_000_000_000_u64 {
            if self.entered.load(Ordering::SeqCst) > 1 {
                self.met.store(1, Ordering::SeqCst);
                return;
            }
        }
    }
}

/// The verdicts that one thread finds.
pub fn one_thread<L: Ledger>(
    alloc: Global,
    grammar: &Grammar,
    doc: &Doc,
    blank: Blank,
) -> Result<Verdicts, Fail>
    requires name { blank.name ≡ L.name }
    requires parts { blank.parts ≡ L.parts }
    requires some { 0 < L.parts }
{
    let mut steps = Steps::<L>::start(blank);
    Ok(check_doc(alloc, grammar, b"doc", doc, &mut steps)?)
}

/// The verdicts that several threads find, with this gate.
pub fn by_threads<G: Gate + Sync, L: Ledger>(
    rt: &(impl Threads + Sync),
    alloc: Global,
    grammar: &Grammar,
    doc: &Doc,
    gate: &G,
    blank: Blank,
) -> Result<Verdicts, Fail>
    requires name { blank.name ≡ L.name }
    requires parts { blank.parts ≡ L.parts }
    requires some { 0 < L.parts }
{
    let mut steps = Steps::<L>::start(blank);
    Ok(check_doc_par(rt, alloc, grammar, b"doc", doc, gate, &mut steps)?)
}

// The verdicts that several threads find, with this gate, by a plan that was laid out before.
fn by_plan<G: Gate + Sync, L: Ledger>(
    rt: &(impl Threads + Sync),
    judge: &Judge<'_>,
    doc: &Doc,
    gate: &G,
    blank: Blank,
) -> Result<Verdicts, Fail>
    requires name { blank.name ≡ L.name }
    requires parts { blank.parts ≡ L.parts }
    requires some { 0 < L.parts }
{
    let mut steps = Steps::<L>::start(blank);
    Ok(check_doc_par_by(rt, judge, b"doc", doc, gate, &mut steps)?)
}

/// The first number of a list whose verdicts differ.
pub fn first_difference(verdicts: &Verdicts, others: &Verdicts) -> Option<u64> {
    (0..verdicts.len()).find(|k| verdicts.at(*k) != others.at(*k))
}

/// The grammar of a drill's DTD.
pub fn drill_grammar(alloc: Global) -> Result<Box<Grammar>, Fail> {
    let grammar = build(alloc, read_dtd(alloc, drill_dtd())?)?;
    Ok(Box::new(alloc, grammar)?)
}

fn drill_document(alloc: Global) -> Result<Doc, Fail> {
    let text = drill_doc(alloc, 20_000)?;
    Ok(read_doc(alloc, &text, b"doc")?)
}

fn counts_of(alloc: Global, count: u32) -> Result<Vec<AtomicU64>, AllocError> {
    let mut counts = Vec::new(alloc);
    for _ in 0..count {
        counts.push(AtomicU64::new(0))?;
    }
    Ok(counts)
}

// What several threads find of a document, beside what one thread finds.
#[derive(Clone, Copy)]
struct Findings {
    is_each_told_once: bool,
    lists: u64,
    left: u64,
    is_possible: bool,
    lists_of_one: u64,
    difference: Option<u64>,
}

fn findings_in(gate: &Told, found: &Verdicts, wanted: &Verdicts) -> Findings {
    Findings {
        is_each_told_once: gate
            .counts
            .iter()
            .all(|count| count.load(Ordering::SeqCst) == 1),
        lists: found.len(),
        left: found.left(),
        is_possible: found.first_impossible().is_none(),
        lists_of_one: wanted.len(),
        difference: first_difference(found, wanted),
    }
}

fn findings_beside(
    rt: &(impl Threads + Sync),
    alloc: Global,
    grammar: &Grammar,
    doc: &Doc,
    wanted: &Verdicts,
) -> Result<Findings, Fail> {
    let gate = Told {
        counts: counts_of(alloc, 20_003)?,
    };
    let found = by_threads::<Told, Brand>(rt, alloc, grammar, doc, &gate, Blank::new(1))?;
    Ok(findings_in(&gate, &found, wanted))
}

fn findings_of(rt: &(impl Threads + Sync), alloc: Global) -> Result<Findings, Fail> {
    let grammar = drill_grammar(alloc)?;
    let doc = drill_document(alloc)?;
    let wanted = one_thread::<Brand>(alloc, &grammar, &doc, Blank::new(1))?;
    findings_beside(rt, alloc, &grammar, &doc, &wanted)
}

#[test]
fn threads_give_the_answer_of_one(rt: HostRuntime) -> Result<(), Fail> {
    let found = findings_of(&rt, rt.alloc())?;
    assert!(rt; found.is_each_told_once);
    assert_eq!(rt; found.lists, 20_003);
    assert_eq!(rt; found.left, 20_000);
    assert!(rt; found.is_possible);
    assert_eq!(rt; found.lists_of_one, 20_003);
    assert_eq!(rt; found.difference, None);
    Ok(())
}

// The lists that are left, the number of those that were entered, and 1 where a second thread
// entered one in time.
fn entered_by(
    rt: &(impl Threads + Sync),
    judge: &Judge<'_>,
    doc: &Doc,
) -> Result<(u64, u64, u64), Fail> {
    let gate = Second {
        entered: AtomicU64::new(0),
        met: AtomicU64::new(0),
    };
    let found = by_plan::<Second, Brand>(rt, judge, doc, &gate, Blank::new(1))?;
    let entered = gate.entered.load(Ordering::SeqCst);
    Ok((found.left(), entered, gate.met.load(Ordering::SeqCst)))
}

fn entered_in_drill(
    rt: &(impl Threads + Sync),
    judge: &Judge<'_>,
) -> Result<(u64, u64, u64), Fail> {
    let doc = drill_document(judge.alloc())?;
    entered_by(rt, judge, &doc)
}

fn entered_of(rt: &(impl Threads + Sync), alloc: Global) -> Result<(u64, u64, u64), Fail> {
    let grammar = drill_grammar(alloc)?;
    let plan = Plan::of(alloc, &grammar)?;
    let judge = Judge::new(alloc, &grammar, &plan);
    entered_in_drill(rt, &judge)
}

#[test]
fn a_second_thread_enters(rt: HostRuntime) -> Result<(), Fail> {
    let (left, entered, met) = entered_of(&rt, rt.alloc())?;
    assert_eq!(rt; left, 20_000);
    assert_eq!(rt; entered, 20_003);
    assert_eq!(rt; met, 1);
    Ok(())
}
