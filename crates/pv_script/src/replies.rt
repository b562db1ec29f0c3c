//! The replies to a script's lines.

ghost use Rattle.std.specs.Prelude.{◌≡◌, [], ◌∷◌, ◌++◌, codes, decimal, length, IfOk, OnOk};
ghost use Rattle.pv_words.specs.Lines.{with_feeds};
ghost use Rattle.pv_words.specs.Paths.{path_text};
ghost use Rattle.pv_script.specs.Replies.{reply_bytes, reason_word, verdict_word, edit_lines};
ghost use Rattle.pv_script.specs.Replies.{row_text, row_lines};
ghost use Rattle.pv_words.specs.Words.{words, with_feed};

use crate::edits::push_edit;
use crate::okay::okay_text;
use pv_chars::{Bytes, Labels, NoMemory};
use pv_edit::{Done, Edit, Edits, Reason, VerdictRow, VerdictRows};
use pv_tree::{Path, Verdict};
use pv_words::{push_counted, push_next_number, push_next_word, push_number_line, push_path};
use std::alloc::{AllocError, Global};

/// The answer to a line.
#[derive(Debug, Drop)]
pub enum Reply {
    /// The edit, undo or redo was made.
    Okay(Done),
    /// The edit can't be made: its first reason.
    Shape(Reason),
    /// More lists would be impossible than before: the path of the first of the changed ones. Or,
    /// to `need` and `complete`, inserting elements can't make the document valid: the path of its
    /// first impossible list.
    Impossible(Path),
    /// There is nothing left to undo or redo.
    NoHistory,
    /// The document would be past a limit.
    Limit,
    /// There was too little memory for the line.
    NoMemory,
    /// The line is no command.
    NoCommand,
    /// So many elements are missing.
    Need(u64),
    /// A list is too wide for weights: the path of the first.
    Wide(Path),
    /// More than 1,000,000 elements are missing.
    Heavy,
    /// The document's bytes.
    Show(Bytes),
    /// The number of inserted elements, and the bytes of the completed document.
    Completed(u64, Bytes),
    /// The edits that were made, oldest first.
    History(Edits),
    /// What is known of each list, in document order.
    Verdicts(VerdictRows),
    /// The names that may be put there, in order of declaration.
    Offer(Labels),
}

/// The word of a reason.
fn reason_word(reason: Reason) -> &'static [u8]
    ensures { result.now ≡ reason_word reason }
{
    match reason {
        Reason::NoNode => b"no-node",
        Reason::NotElement => b"not-element",
        Reason::NotText => b"not-text",
        Reason::Range => b"range",
        Reason::BadName => b"bad-name",
        Reason::BadText => b"bad-text",
        Reason::RootShape => b"root-shape",
        Reason::Deep => b"deep",
        Reason::CloseMark => b"close-mark",
    }
}

/// The word of a verdict.
fn verdict_word(verdict: Verdict) -> &'static [u8]
    ensures { result.now ≡ verdict_word verdict }
{
    match verdict {
        Verdict::Valid => b"valid",
        Verdict::Possible => b"possible",
        Verdict::Impossible => b"impossible",
    }
}

// Appends a line with its LF.
fn push_line(text: &mut Vec<u8>, line: &[u8]) -> Result<(), AllocError>
    ensures { OnOk result (text.new.items ≡ text.old.items ++ with_feed line.now) }
{
    text.extend_from_slice(line)?;
    text.push(b'\n')?;
    Ok(())
}

// Appends a line of two words.
fn push_words(text: &mut Vec<u8>, word: &[u8], next: &[u8]) -> Result<(), AllocError>
    ensures { OnOk result (text.new.items ≡
        text.old.items ++ with_feed (words (word.now ∷ next.now ∷ []))) }
{
    text.extend_from_slice(word)?;
    push_next_word(text, next)?;
    text.push(b'\n')?;
    Ok(())
}

// Appends a line of a word and a path.
fn push_with_path(text: &mut Vec<u8>, word: &[u8], path: &Path) -> Result<(), AllocError>
    ensures { OnOk result (text.new.items ≡
        text.old.items ++ with_feed (words (word.now ∷ path_text path.now ∷ []))) }
{
    text.extend_from_slice(word)?;
    text.push(b' ')?;
    push_path(text, path.places())?;
    text.push(b'\n')?;
    Ok(())
}

// Appends a line of a word and two numbers.
fn push_with_numbers(
    text: &mut Vec<u8>,
    word: &[u8],
    number: u64,
    next: u64,
) -> Result<(), AllocError>
    ensures { OnOk result (text.new.items ≡
        text.old.items ++ with_feed (words (word.now ∷ decimal number ∷ decimal next ∷ []))) }
{
    text.extend_from_slice(word)?;
    push_next_number(text, number)?;
    push_next_number(text, next)?;
    text.push(b'\n')?;
    Ok(())
}

// Appends the line of each edit.
fn push_edits(text: &mut Vec<u8>, edits: &[Edit]) -> Result<(), AllocError>
    ensures { OnOk result (text.new.items ≡ text.old.items ++ edit_lines edits.now) }
{
    for edit in edits {
        push_edit(text, edit)?;
        text.push(b'\n')?;
    }
    Ok(())
}

// Appends what is known of a list.
fn push_row(text: &mut Vec<u8>, row: &VerdictRow) -> Result<(), AllocError>
    ensures { OnOk result (text.new.items ≡ text.old.items ++ with_feed (row_text row.now)) }
{
    push_path(text, row.path.places())?;
    push_next_word(text, verdict_word(row.verdict))?;
    push_next_number(text, row.stamp)?;
    text.push(b'\n')?;
    Ok(())
}

// Appends the line of each list.
fn push_rows(text: &mut Vec<u8>, rows: &[VerdictRow]) -> Result<(), AllocError>
    ensures { OnOk result (text.new.items ≡ text.old.items ++ row_lines rows.now) }
{
    for row in rows {
        push_row(text, row)?;
    }
    Ok(())
}

// Appends each name on a line of its own.
fn push_names(text: &mut Vec<u8>, names: &[Bytes]) -> Result<(), AllocError>
    ensures { OnOk result (text.new.items ≡ text.old.items ++ with_feeds names.now) }
{
    for name in names {
        push_line(text, name.as_slice())?;
    }
    Ok(())
}

// Appends the line of a completion, and the bytes of the completed document.
fn push_completed(text: &mut Vec<u8>, inserted: u64, bytes: &[u8]) -> Result<(), AllocError>
    ensures { OnOk result (text.new.items ≡ text.old.items ++
        (with_feed (words (codes "completed" ∷ decimal inserted ∷ decimal (length bytes.now) ∷ []))
        ++ with_feed bytes.now)) }
{
    push_with_numbers(text, b"completed", inserted, bytes.len() as u64)?;
    text.reserve_exact(bytes.len() + 1)?;
    push_line(text, bytes)
}

fn push_history(text: &mut Vec<u8>, edits: &[Edit]) -> Result<(), AllocError>
    ensures { OnOk result (text.new.items ≡ text.old.items ++
        (with_feed (words (codes "history" ∷ decimal (length edits.now) ∷ []))
        ++ edit_lines edits.now)) }
{
    push_number_line(text, b"history", edits.len() as u64)?;
    push_edits(text, edits)
}

fn push_verdicts(text: &mut Vec<u8>, rows: &[VerdictRow]) -> Result<(), AllocError>
    ensures { OnOk result (text.new.items ≡ text.old.items ++
        (with_feed (words (codes "verdicts" ∷ decimal (length rows.now) ∷ []))
        ++ row_lines rows.now)) }
{
    push_number_line(text, b"verdicts", rows.len() as u64)?;
    push_rows(text, rows)
}

fn push_offer(text: &mut Vec<u8>, names: &[Bytes]) -> Result<(), AllocError>
    ensures { OnOk result (text.new.items ≡ text.old.items ++
        (with_feed (words (codes "offer" ∷ decimal (length names.now) ∷ []))
        ++ with_feeds names.now)) }
{
    push_number_line(text, b"offer", names.len() as u64)?;
    push_names(text, names)
}

// Appends the reply to a change that was made.
fn push_okay(text: &mut Vec<u8>, done: &Done) -> Result<(), AllocError>
    ensures { OnOk result (text.new.items ≡ text.old.items ++ reply_bytes (Reply.Okay done.now)) }
{
    let mut room = [0u8; 64];
    let end = okay_text(done, &mut room);
    text.extend_from_slice(&room[..end])
}

/// The reply to a line that there is no memory for, which takes none.
pub fn no_memory_text() -> &'static [u8]
    ensures { result.now ≡ reply_bytes Reply.NoMemory }
{
    b"no memory\n"
}

/// The reply to a line that is no command, which takes no memory.
pub fn no_command_text() -> &'static [u8]
    ensures { result.now ≡ reply_bytes Reply.NoCommand }
{
    b"no command\n"
}

// Appends a reply.
fn push_reply(text: &mut Vec<u8>, reply: &Reply) -> Result<(), AllocError>
    ensures { OnOk result (text.new.items ≡ text.old.items ++ reply_bytes reply.now) }
{
    match reply {
        Reply::Okay(done) => push_okay(text, done),
        Reply::Shape(reason) => push_words(text, b"no shape", reason_word(*reason)),
        Reply::Impossible(path) => push_with_path(text, b"no impossible", path),
        Reply::NoHistory => push_line(text, b"no history"),
        Reply::Limit => push_line(text, b"no limit"),
        Reply::NoMemory => text.extend_from_slice(no_memory_text()),
        Reply::NoCommand => text.extend_from_slice(no_command_text()),
        Reply::Need(number) => push_number_line(text, b"need", *number),
        Reply::Wide(path) => push_with_path(text, b"no wide", path),
        Reply::Heavy => push_line(text, b"no heavy"),
        Reply::Show(bytes) => push_counted(text, b"show", bytes.as_slice()),
        Reply::Completed(inserted, bytes) => push_completed(text, *inserted, bytes.as_slice()),
        Reply::History(edits) => push_history(text, edits.as_slice()),
        Reply::Verdicts(rows) => push_verdicts(text, rows.as_slice()),
        Reply::Offer(names) => push_offer(text, names.as_slice()),
    }
}

/// The bytes of a reply.
pub fn reply_text(alloc: Global, reply: &Reply) -> Result<Vec<u8>, NoMemory>
    ensures { IfOk result (λ text. text.items ≡ reply_bytes reply.now) }
{
    let mut text = Vec::new(alloc);
    push_reply(&mut text, reply)?;
    Ok(text)
}
