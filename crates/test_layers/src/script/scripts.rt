//! Lines and commands.

use pv_edit::{Ask, Edit};
use pv_script::{Command, CommandError, Lines, Took, edit_line, read_command};
use std::alloc::Global;
use std::test::Fail;
use test_fixture::rows::expect;

/// Pieces of a script, one after the other, each with what is told of it, and the line that is
/// held then.
static PIECES: [(&[u8], Took, &[u8]); 4] = [
    (b"sh", Took::More, b"sh"),
    (b"ow\r\nundo\n", Took::Line(4), b"show"),
    (b"undo\n", Took::Line(5), b"undo"),
    (b"\r\r", Took::More, b""),
];

#[test]
fn lines(rt: HostRuntime) -> Result<(), Fail> {
    let mut lines = Lines::new(rt.alloc())?;
    for (piece, took, line) in &PIECES {
        let told = lines.take(*piece);
        expect(told == *took && lines.line() == *line, piece)?;
    }
    assert!(rt; lines.held() == 2);
    lines.clear();
    assert!(rt; lines.held() == 0);
    Ok(())
}

// The word of the command that was read.
fn word(read: &Result<Command, CommandError>) -> &'static str {
    match read {
        Ok(Command::Edit(_)) => "an edit",
        Ok(Command::Undo) => "undo",
        Ok(Command::Redo) => "redo",
        Ok(Command::History) => "history",
        Ok(Command::Show) => "show",
        Ok(Command::Verdicts) => "verdicts",
        Ok(Command::Need) => "need",
        Ok(Command::Complete) => "complete",
        Ok(Command::Offer(_)) => "offer",
        Ok(Command::Quit) => "quit",
        Err(CommandError::Unknown) => "unknown",
        Err(CommandError::NoMemory) => "no memory",
    }
}

// The word of the command that the line is.
fn word_of(alloc: Global, line: &str) -> &'static str {
    let read = read_command(alloc, line.as_bytes());
    word(&read)
}

/// Commands that are one word.
static WORDS: [&str; 8] = [
    "undo", "redo", "history", "show", "verdicts", "need", "complete", "quit",
];

/// Lines that are no command.
static NO_COMMANDS: [&str; 54] = [
    "offer",
    "offer ",
    "offer 0 ",
    "offer 0 1",
    "offer 0 1 2 p",
    "offer 0 01 2",
    "",
    " ",
    "show ",
    " show",
    "Show",
    "need ",
    "need 1",
    "needs",
    "complete ",
    "complete 1",
    "completed",
    "undo 1",
    "wrap",
    "wrap ",
    "wrap 0 0 1",
    "wrap  0 0 1 p",
    "wrap 0  0 1 p",
    "wrap 0 0 1p",
    "insert 0 x p",
    "insert 0 01 p",
    "insert 0 +1 p",
    "insert 0 -1 p",
    "insert 0 4294967296 p",
    "insert 0  p",
    "insert 0 0",
    "unwrap",
    "unwrap ",
    "unwrap 0 ",
    "unwrap 0..1",
    "unwrap .0",
    "unwrap 0.",
    "unwrap ..",
    "unwrap 00",
    "unwrap 0.01",
    "unwrap 4294967296",
    "rename 0",
    "split 0",
    "split 0 1 ",
    "split 0 0x1",
    "join",
    "join 0 0",
    "text 0.0",
    "text",
    "addtext 0 0",
    "addtext 0 x",
    "deltext",
    "deltext 0\u{e9}",
    "quit\r",
];

#[test]
fn commands(rt: HostRuntime) -> Result<(), Fail> {
    for word in &WORDS {
        expect(word_of(rt.alloc(), *word) == *word, word)?;
    }
    for line in &NO_COMMANDS {
        expect(word_of(rt.alloc(), *line) == "unknown", line)?;
    }
    Ok(())
}

/// Questions, each with its path, and the numbers of a wrap, or none of a rename.
static ASKS: [(&str, &[u32], Option<(u32, u32)>); 2] = [
    ("offer 0.1 2 30", &[0, 1], Some((2, 30))),
    ("offer .", &[], None),
];

// Whether what was read asks this.
fn asks_this(
    read: &Result<Command, CommandError>,
    places: &[u32],
    numbers: Option<(u32, u32)>,
) -> bool {
    match read {
        Ok(Command::Offer(Ask::Wrap { path, from, to })) => {
            path.places() == places && numbers == Some((*from, *to))
        }
        Ok(Command::Offer(Ask::Rename { path })) => path.places() == places && numbers.is_none(),
        _ => false,
    }
}

fn is_ask(alloc: Global, line: &str, places: &[u32], numbers: Option<(u32, u32)>) -> bool {
    let read = read_command(alloc, line.as_bytes());
    asks_this(&read, places, numbers)
}

#[test]
fn asks(rt: HostRuntime) -> Result<(), Fail> {
    for (line, places, numbers) in &ASKS {
        expect(is_ask(rt.alloc(), *line, *places, *numbers), line)?;
    }
    Ok(())
}

/// Lines of edits.
static EDITS: [&str; 11] = [
    "wrap 0.12 0 4294967295 p",
    "insert . 0 title",
    "unwrap 0.1.2",
    "rename 0 a b ",
    "rename 0 ",
    "split 4294967295 10",
    "join 0.0",
    "text 0.0 ",
    "text 0.0  two  words ",
    "addtext . 7 x",
    "deltext .",
];

// Whether the edit is written as this line.
fn is_written(alloc: Global, edit: &Edit, line: &str) -> bool {
    match edit_line(alloc, edit) {
        Ok(written) => written.as_slice() == line.as_bytes(),
        Err(_) => false,
    }
}

// Whether the line is read as an edit that is written as this line.
fn is_read_again(alloc: Global, line: &str) -> bool {
    let read = read_command(alloc, line.as_bytes());
    match &read {
        Ok(Command::Edit(edit)) => is_written(alloc, edit, line),
        _ => false,
    }
}

#[test]
fn edits(rt: HostRuntime) -> Result<(), Fail> {
    for line in &EDITS {
        expect(is_read_again(rt.alloc(), *line), line)?;
    }
    Ok(())
}
