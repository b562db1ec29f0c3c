//! Moves one after the other, with a comparison after each.

ghost use Rattle.std.specs.Prelude.{◌≡◌, ◌<◌};

use crate::calls::Texts;
use crate::games::comparing::{expect_fresh, expect_same, expect_stamped};
use crate::games::random::{Random, random_move};
use crate::games::sessions::{begin, make};
use pv_edit::Done;
use pv_script::{Command, read_command};
use pv_session::Session;
use pv_steps::Steps;
use std::alloc::Global;
use std::marker::Brand;
use std::sync::ledger::{Blank, Ledger};
use std::test::Fail;
use test_fixture::dtds::{ANY_OR_ENDLESS, ARTICLE, MIXED, NESTED, REALISTIC};

// Makes a move, and compares: what was done; none where it was refused. So many were made before.
// An edit leaves no more impossible lists than there were.
fn turn<L: Ledger>(
    alloc: Global,
    session: &mut Session,
    root: &str,
    moves: &mut u64,
    command: &Command,
    steps: &mut Steps<L>,
) -> Result<Option<Done>, Fail> {
    let before = session.verdict_rows()?;
    let bad = session.bad_count();
    let made = make(session, command, steps)?;
    let after = session.verdict_rows()?;
    expect_fresh(alloc, session, &after, root, steps)?;
    match made {
        Some(done) => {
            *moves = moves.saturating_add(1);
            expect_stamped(&after, done, *moves)?;
            if matches!(command, Command::Edit(_)) && done.bad > bad {
                return Err(Fail::new("an edit left more impossible lists"));
            }
        }
        None => expect_same(&before, &after)?,
    }
    Ok(made)
}

// Lines, each with how many lists are checked and how many are Possible after it; none where it is
// refused.
static LINES: [(&str, Option<(u32, u64)>); 20] = [
    ("wrap 0.3 0 3 p", Some((2, 1))),
    ("wrap 0.3 1 4 p", Some((2, 0))),
    ("insert 0.3 0 title", Some((2, 0))),
    ("addtext 0.3.0 0 Opening", Some((1, 0))),
    ("rename 0.3.2 list", Some((2, 1))),
    ("undo", Some((2, 0))),
    ("wrap 0.3 1 2 head", None),
    ("unwrap 0.3.1.1", None),
    // All back, and all made again.
    ("undo", Some((1, 0))),
    ("undo", Some((1, 0))),
    ("undo", Some((1, 1))),
    ("undo", Some((1, 1))),
    ("undo", None),
    ("redo", Some((2, 1))),
    ("redo", Some((2, 0))),
    ("redo", Some((2, 0))),
    ("redo", Some((1, 0))),
    ("redo", Some((2, 1))),
    ("redo", None),
    ("undo", Some((2, 0))),
];

// Makes the moves of these lines.
fn play_each_line<L: Ledger>(
    alloc: Global,
    session: &mut Session,
    steps: &mut Steps<L>,
) -> Result<(), Fail> {
    let mut moves: u64 = 0;
    for (line, wanted) in &LINES {
        let command = read_command(alloc, line.as_bytes())?;
        let made = turn(alloc, session, "doc", &mut moves, &command, steps)?;
        let told = made.map(|done| (done.checked, done.left));
        if told != *wanted || session.bad_count() != 0 {
            return Err(Fail::new(format_args!("{line}: another answer")));
        }
    }
    Ok(())
}

fn play_lines<L: Ledger>(alloc: Global, blank: Blank) -> Result<(), Fail>
    requires name { blank.name ≡ L.name }
    requires parts { blank.parts ≡ L.parts }
    requires some { 0 < L.parts }
{
    let mut steps = Steps::<L>::start(blank);
    let mut session = begin(alloc, (ARTICLE, "doc", REALISTIC), &mut steps)?;
    play_each_line(alloc, &mut session, &mut steps)
}

#[test]
fn a_realistic_document(rt: HostRuntime) -> Result<(), Fail> {
    play_lines::<Brand>(rt.alloc(), Blank::new(1))
}

// How many games are played on each board, and how many moves are tried in each.
const GAMES: u32 = 10;

const TURNS: u32 = 60;

// Documents, and names for their elements.
static BOARDS: [(Texts, &[&str]); 9] = [
    (
        (ARTICLE, "doc", REALISTIC),
        &[
            "head", "sec", "title", "p", "em", "br", "list", "item", "1x",
        ],
    ),
    (
        (ARTICLE, "doc", "<doc>Hello</doc>"),
        &[
            "head", "sec", "title", "p", "p", "em", "list", "item", "doc",
        ],
    ),
    ((NESTED, "x", "<x><y/><y/><y/></x>"), &["x", "x", "y", "z"]),
    (
        (ANY_OR_ENDLESS, "a", "<a>x<a/> <!--c--></a>"),
        &["a", "a", "a", "b", "c"],
    ),
    (
        (MIXED, "a", "<a>x<b/><![CDATA[y]]></a>"),
        &["a", "b", "b", "c"],
    ),
    // One list, with kids that have no token among the others.
    (
        (
            MIXED,
            "a",
            "<a>x<b/> <b/><!--c--><b/> <?p?><b/><![CDATA[y]]><b/>z<b/> </a>",
        ),
        &["a", "b", "b", "b", "c"],
    ),
    // Impossible documents.
    (
        (ARTICLE, "doc", "<doc><sec/><head/></doc>"),
        &[
            "head", "sec", "title", "p", "em", "br", "list", "item", "doc",
        ],
    ),
    (
        (
            ARTICLE,
            "doc",
            "<doc><br>x<head/></br><sec><p><br> </br></p></sec><head/>y<zz/></doc>",
        ),
        &["head", "head", "sec", "p", "p", "em", "br", "br", "zz"],
    ),
    (
        (ANY_OR_ENDLESS, "a", "<a><b><a/></b>x<c/></a>"),
        &["a", "a", "b", "b", "c"],
    ),
];

// Tries so many moves; how many of them were made.
fn play_moves<L: Ledger>(
    alloc: Global,
    session: &mut Session,
    board: &(Texts, &[&str]),
    seed: u32,
    turns: u32,
    steps: &mut Steps<L>,
) -> Result<u64, Fail> {
    let mut moves: u64 = 0;
    let mut random = Random { state: seed };
    for _ in 0..turns {
        let command = random_move(alloc, &mut random, session, board.1)?;
        turn(alloc, session, board.0.1, &mut moves, &command, steps)?;
    }
    Ok(moves)
}

// Plays a game on a board; how many moves were made.
fn play<L: Ledger>(
    alloc: Global,
    board: &(Texts, &[&str]),
    seed: u32,
    turns: u32,
    steps: &mut Steps<L>,
) -> Result<u64, Fail> {
    let mut session = begin(alloc, board.0, steps)?;
    play_moves(alloc, &mut session, board, seed, turns, steps)
}

fn play_all<L: Ledger>(alloc: Global, blank: Blank) -> Result<u64, Fail>
    requires name { blank.name ≡ L.name }
    requires parts { blank.parts ≡ L.parts }
    requires some { 0 < L.parts }
{
    let mut steps = Steps::<L>::start(blank);
    let mut made: u64 = 0;
    for board in &BOARDS {
        for seed in 0..GAMES {
            made = made.saturating_add(play(alloc, board, seed, TURNS, &mut steps)?);
        }
    }
    Ok(made)
}

#[test]
fn random_games(rt: HostRuntime) -> Result<(), Fail> {
    let made = play_all::<Brand>(rt.alloc(), Blank::new(1))?;
    assert!(rt; made > 1000, "{made} moves were made");
    Ok(())
}
