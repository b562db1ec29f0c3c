//! Runs of the program, each with the answer that it has to give.

ghost use Rattle.std.specs.Prelude.{◌<◌};

use crate::runs::runs::{Given, Piece, answer};
use pv_cli::Status;
use std::marker::Brand;
use std::sync::ledger::Blank;
use std::test::Fail;
use std::thread::Threads;
use test_fixture::dtds::ARTICLE;

/// A DTD, a root and a document, and the status and the output of a command on them.
pub type Row<'a> = (&'a str, &'a str, &'a str, Status, &'a str);

/// Runs the program on what is given. A `Fail`, by this name, where it has another status or
/// output.
pub fn check_run<R: AllocGlobal + Threads + Sync>(
    rt: &R,
    name: &str,
    given: &Given<'_, '_>,
    status: Status,
    output: &[u8],
) -> Result<(), Fail> {
    let (answered, written) = answer::<Brand, R>(rt, given, Blank::new(1))?;
    if answered != status {
        return Err(Fail::new(format_args!("{name}: the status is {answered:?}")));
    }
    if written.as_slice() != output {
        return Err(Fail::new(format_args!("{name}: the output is another")));
    }
    Ok(())
}

/// Runs a command on each row. A `Fail` at the first with another answer.
pub fn check_rows<'a, R: AllocGlobal + Threads + Sync>(
    rt: &R,
    command: &'a str,
    rows: &[Row<'a>],
) -> Result<(), Fail> {
    for (dtd, root, doc, status, output) in rows {
        let words: [&'a str; 4] = [command, "a.dtd", *root, "d.xml"];
        let files: [(&'a str, &'a str); 2] = [("a.dtd", *dtd), ("d.xml", *doc)];
        let given = Given::plain(&words, &files);
        check_run(rt, *doc, &given, *status, output.as_bytes())?;
    }
    Ok(())
}

/// A DTD, a root, and documents with the line that a command prints on each.
pub type Lines<'a> = (&'a str, &'a str, &'a [(&'a str, &'a str)]);

/// Runs a command on each document of these. A `Fail` at the first with another status or line.
pub fn check_lines<'a, R: AllocGlobal + Threads + Sync>(
    rt: &R,
    command: &'a str,
    status: Status,
    groups: &[Lines<'a>],
) -> Result<(), Fail> {
    for (dtd, root, docs) in groups {
        for (doc, line) in *docs {
            check_rows(rt, command, &[(*dtd, *root, *doc, status, *line)])?;
        }
    }
    Ok(())
}

/// A DTD, a root and a document.
pub type Texts<'a> = (&'a str, &'a str, &'a str);

/// A session on a document has these replies to a script, where so many bytes come and go at once.
/// A `Fail`, by this name, where it has others.
pub fn check_session<'a, R: AllocGlobal + Threads + Sync>(
    rt: &R,
    name: &str,
    texts: Texts<'a>,
    script: &[u8],
    replies: &[u8],
    piece: usize,
) -> Result<(), Fail>
    requires { 0 < piece }
{
    let (dtd, root, doc) = texts;
    let words: [&'a str; 4] = ["session", "a.dtd", root, "d.xml"];
    let files: [(&'a str, &'a str); 2] = [("a.dtd", dtd), ("d.xml", doc)];
    let given = Given {
        input: script,
        piece: Piece { size: piece },
        room: 1_048_576,
        ..Given::plain(&words, &files)
    };
    check_run(rt, name, &given, Status::Done, replies)
}

/// A document of an article, a script, and the replies to it.
pub type Script = (&'static str, &'static str, &'static str);

/// A session on each row's document gives its replies, where so many bytes come and go at once.
pub fn check_scripts<R: AllocGlobal + Threads + Sync>(
    rt: &R,
    rows: &[Script],
    piece: usize,
) -> Result<(), Fail>
    requires { 0 < piece }
{
    for (doc, script, replies) in rows {
        let texts = (ARTICLE, "doc", *doc);
        check_session(
            rt,
            *script,
            texts,
            script.as_bytes(),
            replies.as_bytes(),
            piece,
        )?;
    }
    Ok(())
}
