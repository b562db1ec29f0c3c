//! Random documents, checked by threads that a gate holds up.

ghost use Rattle.std.specs.Prelude.{◌≡◌, ◌<◌};

use crate::threads::documents::{by_threads, drill_grammar, first_difference, one_thread};
use pv_missing::Verdicts;
use pv_parallel::Gate;
use pv_productive::Grammar;
use pv_read::read_doc;
use pv_tree::Doc;
use std::alloc::{AllocError, Global};
use std::hint::spin_loop;
use std::marker::Brand;
use std::sync::atomic::{AtomicU64, Ordering};
use std::sync::ledger::{Blank, Ledger};
use std::test::Fail;
use std::thread::{Threads, yield_now};

// Pseudo-random numbers below 2^31.
#[derive(Drop)]
struct Random {
    state: u64,
}

impl Random {
    fn next(&mut self) -> u64 {
        self.state = self
            .state
            .wrapping_mul(6_364_136_223_846_793_005)
            .wrapping_add(1_442_695_040_888_963_407);
        self.state >> 33
    }
}

#[derive(Clone, Copy)]
enum Name {
    Doc,
    Sec,
    P,
    Em,
}

impl Name {
    fn text(self) -> &'static str {
        match self {
            Name::Doc => "doc",
            Name::Sec => "sec",
            Name::P => "p",
            Name::Em => "em",
        }
    }

    // A name for a kid: now and then one that can't stand there.
    fn kid(self, number: u64) -> Name {
        if number % 9_000 == 0 {
            return Name::Doc;
        }
        match (self, number % 3) {
            (Name::Doc, 0) => Name::Sec,
            (Name::Doc, 1) => Name::P,
            (Name::Sec, 0 | 1) => Name::P,
            _ => Name::Em,
        }
    }
}

fn add(text: &mut Vec<u8>, before: &str, name: Name, behind: &str) -> Result<(), AllocError> {
    text.extend_from_slice(before.as_bytes())?;
    text.extend_from_slice(name.text().as_bytes())?;
    text.extend_from_slice(behind.as_bytes())
}

// Adds a text, an element without kids, or a start or an end tag.
fn add_piece(
    random: &mut Random,
    open: &mut Vec<Name>,
    text: &mut Vec<u8>,
) -> Result<(), AllocError> {
    let owner = match open.last() {
        Some(name) => *name,
        None => Name::Doc,
    };
    let kid = owner.kid(random.next());
    match random.next() % 8 {
        0 => text.extend_from_slice(b"x"),
        1 | 2 => add(text, "<", kid, "/>"),
        3 | 4 | 5 if open.len() < 300 => {
            open.push(kid)?;
            add(text, "<", kid, ">")
        }
        _ => match open.pop() {
            Some(name) => add(text, "</", name, ">"),
            None => Ok(()),
        },
    }
}

fn close(open: &[Name], text: &mut Vec<u8>) -> Result<(), AllocError> {
    for name in open.iter().rev() {
        add(text, "</", *name, ">")?;
    }
    text.extend_from_slice(b"</doc>")
}

// A document of so many pieces.
fn random_text(alloc: Global, random: &mut Random, pieces: u32) -> Result<Vec<u8>, AllocError> {
    let mut text = Vec::new(alloc);
    let mut open = Vec::new(alloc);
    text.extend_from_slice(b"<doc>")?;
    for _ in 0..pieces {
        add_piece(random, &mut open, &mut text)?;
    }
    close(&open, &mut text)?;
    Ok(text)
}

#[derive(Clone, Copy)]
enum How {
    Waits,
    Spins,
    Yields,
}

// Holds threads up, some lists longer than others.
#[derive(Drop)]
struct Holding {
    how: How,
    entered: AtomicU64,
}

impl Holding {
    // Waits for the next list that is entered, though not for ever.
    fn wait(&self, count: u64) {
        for _ in 0..2_000_u32 {
            if self.entered.load(Ordering::SeqCst) != count {
                return;
            }
        }
    }
}

fn spin(times: u64) {
    for _ in 0..times {
        spin_loop();
    }
}

impl Gate for Holding {
    ghost use Rattle.std.specs.Prelude.{⊤};

    ghost entered = { λ _ _. ⊤ };

    fn enter(&self, number: u64) {
        let count = self.entered.fetch_add(1, Ordering::SeqCst);
        match self.how {
            How::Waits if number % 64 == 0 => self.wait(count.wrapping_add(1)),
            How::Spins => spin(number % 50),
            How::Yields if number % 16 == 0 => yield_now(),
            _ => {}
        }
    }
}

fn is_same_first(verdicts: &Verdicts, others: &Verdicts) -> bool {
    match (verdicts.first_impossible(), others.first_impossible()) {
        (Some(path), Some(other)) => path.places() == other.places(),
        (None, None) => true,
        _ => false,
    }
}

// A `Fail` where threads that are held up find other verdicts.
fn compare<R: AllocGlobal + Threads + Sync, L: Ledger>(
    rt: &R,
    grammar: &Grammar,
    doc: &Doc,
    wanted: &Verdicts,
    how: How,
    blank: Blank,
) -> Result<(), Fail>
    requires name { blank.name ≡ L.name }
    requires parts { blank.parts ≡ L.parts }
    requires some { 0 < L.parts }
{
    let gate = Holding {
        how,
        entered: AtomicU64::new(0),
    };
    let found = by_threads::<Holding, L>(rt, rt.alloc(), grammar, doc, &gate, blank)?;
    if found.len() != wanted.len() || gate.entered.load(Ordering::SeqCst) != wanted.len() {
        return Err(Fail::new(format_args!("another number of lists")));
    }
    if let Some(number) = first_difference(&found, wanted) {
        return Err(Fail::new(format_args!("another verdict of list {number}")));
    }
    if !is_same_first(&found, wanted) {
        return Err(Fail::new(format_args!("another first Impossible list")));
    }
    Ok(())
}

// Compares them so in each way in which they are held up.
fn compare_each<R: AllocGlobal + Threads + Sync>(
    rt: &R,
    grammar: &Grammar,
    doc: &Doc,
    wanted: &Verdicts,
) -> Result<(), Fail> {
    for how in [How::Waits, How::Spins, How::Yields] {
        compare::<R, Brand>(rt, grammar, doc, wanted, how, Blank::new(1))?;
    }
    Ok(())
}

fn try_document<R: AllocGlobal + Threads + Sync>(
    rt: &R,
    grammar: &Grammar,
    text: &[u8],
) -> Result<(), Fail> {
    let doc = read_doc(rt.alloc(), text, b"doc")?;
    let wanted = one_thread::<Brand>(rt.alloc(), grammar, &doc, Blank::new(1))?;
    compare_each(rt, grammar, &doc, &wanted)
}

#[test]
fn random_documents(rt: HostRuntime) -> Result<(), Fail> {
    let grammar = drill_grammar(rt.alloc())?;
    let mut random = Random { state: 1 };
    for _ in 0..8_u32 {
        let text = random_text(rt.alloc(), &mut random, 50_000)?;
        try_document(&rt, &grammar, &text)?;
    }
    Ok(())
}
