//! Rows of `session`: scripts and the replies to them, faults and limits.

ghost use Rattle.std.specs.Prelude.{◌<◌};

use crate::runs::rows::{Script, check_run, check_scripts, check_session};
use crate::runs::runs::{Given, Piece};
use pv_cli::Status;
use std::alloc::{AllocError, Global};
use std::test::Fail;
use std::thread::Threads;
use test_fixture::dtds::{ARTICLE, REALISTIC};

const WORDS: &[&str] = &["session", "a.dtd", "doc", "d.xml"];

/// A document with one text.
pub const HELLO: &str = "<doc>Hello</doc>";

const VALID: &str = "<doc><head>a</head><sec></sec></doc>";

// Edits of the realistic document.
const MARKUP: &str = "wrap 0.3 0 3 p
wrap 0.3 1 4 p
insert 0.3 0 title
addtext 0.3.0 0 Opening
rename 0.3.2 list
undo
wrap 0.3 1 2 head
unwrap 0.3.1.1
verdicts
show
";

const MARKED: &str = "ok 2 1 0
ok 2 0 0
ok 2 0 0
ok 1 0 0
ok 2 1 0
ok 2 0 0
no impossible 0.3
no shape not-element
verdicts 9
. valid 0
0 valid 0
0.1 valid 0
0.3 valid 6
0.3.0 valid 4
0.3.1 valid 1
0.3.2 valid 6
0.3.2.0 valid 0
0.3.2.2 valid 0
show 288
<?xml version=\"1.0\" encoding=\"UTF-8\"?>
<!DOCTYPE doc SYSTEM \"a.dtd\">
<!-- draft -->
<doc id=\"d1\">
<head>On caf&#233;s</head>
<sec class='intro'><title>Opening</title><p>
Cafés opened early. See <![CDATA[<menu>]]> below.
</p><p><em>Tea</em> came later.<br /></p>
</sec>
<?page 2?>
</doc>

";

static SCRIPTS: [Script; 14] = [
    (
        VALID,
        "show\n",
        "show 36\n<doc><head>a</head><sec></sec></doc>\n",
    ),
    (HELLO, "", ""),
    (HELLO, "\nshow", "no command\nshow 16\n<doc>Hello</doc>\n"),
    (HELLO, "quit\nshow\n\n", ""),
    (HELLO, "undo\n\r", "no history\nno command\n"),
    (HELLO, "show\r\r\n", "show 16\n<doc>Hello</doc>\n"),
    (HELLO, "show \nundo\n", "no command\nno history\n"),
    (" <doc\n/> ", "show\nquit\nshow", "show 9\n <doc\n/> \n"),
    (
        HELLO,
        "wrap 0 0 1 br\nshow\n",
        "no impossible 0.0\nshow 16\n<doc>Hello</doc>\n",
    ),
    (
        "<doc><p>a</p></doc>",
        "rename 0.0 head\nundo\nundo\nredo\nredo\n",
        "ok 2 1 0\nok 2 1 0\nno history\nok 2 1 0\nno history\n",
    ),
    (
        HELLO,
        "split 0.0 2\nwrap 0 0 1 head\nshow\nhistory\nverdicts\n",
        "ok 1 1 0\nok 2 1 0\nshow 29\n<doc><head>He</head>llo</doc>\n\
         history 2\nsplit 0.0 2\nwrap 0 0 1 head\n\
         verdicts 3\n. valid 0\n0 possible 2\n0.0 valid 2\n",
    ),
    (
        HELLO,
        "wrap 0 2 5 p\nwrap 0 1 1 p\ninsert 0 0 head\nshow\n",
        "no shape range\nok 2 1 0\nok 2 1 0\nshow 30\n<doc><head/>Hello<p></p></doc>\n",
    ),
    (
        HELLO,
        "addtext 0 1 , you\njoin 0.0\ntext 0.0 Hi &amp; bye\ntext 0.0 a&nbsp;\ndeltext 0.0\nshow\n\
         undo\nshow\n",
        "ok 1 1 0\nok 1 1 0\nok 1 1 0\nno shape bad-text\nok 1 1 0\nshow 11\n<doc></doc>\n\
         ok 1 1 0\nshow 23\n<doc>Hi &amp; bye</doc>\n",
    ),
    (REALISTIC, MARKUP, MARKED),
];

#[test]
fn scripts(rt: HostRuntime) -> Result<(), Fail> {
    check_scripts(&rt, &SCRIPTS, 1)?;
    check_scripts(&rt, &SCRIPTS, 65_536)
}

#[test]
fn a_document_is_shown(rt: HostRuntime) -> Result<(), Fail> {
    let texts = (ARTICLE, "doc", REALISTIC);
    let shown = format!(in rt.alloc(); "show {}\n{}\n", REALISTIC.len(), REALISTIC)?;
    check_session(&rt, "show", texts, b"show\n", shown.as_bytes(), 1)
}

const FILES: &[(&str, &str)] = &[("a.dtd", ARTICLE), ("d.xml", HELLO)];

// Runs a session whose calls of these numbers fail, of the input and of the output.
fn check_outcome<R: AllocGlobal + Threads + Sync>(
    rt: &R,
    script: &[u8],
    piece: usize,
    failing: (&[u64], &[u64]),
    ends: (Status, &str),
) -> Result<(), Fail>
    requires { 0 < piece }
{
    let given = Given {
        input: script,
        piece: Piece { size: piece },
        failing_fills: failing.0,
        failing_puts: failing.1,
        ..Given::plain(WORDS, FILES)
    };
    check_run(rt, "a session", &given, ends.0, ends.1.as_bytes())
}

#[test]
fn faults(rt: HostRuntime) -> Result<(), Fail> {
    let nothing = (Status::ReadFault, "");
    check_outcome(&rt, b"show\n", 1, (&[0], &[]), nothing)?;
    let whole_lines = (Status::ReadFault, "show 16\n<doc>Hello</doc>\n");
    check_outcome(&rt, b"show\nsh", 65_536, (&[1], &[]), whole_lines)?;
    // The replies to the lines of a piece are written together, and those before the next piece is
    // asked for.
    let unwritten = (Status::WriteFault, "");
    check_outcome(&rt, b"\nshow\n", 65_536, (&[], &[0]), unwritten)?;
    let cut_off = (Status::WriteFault, "no command\n");
    check_outcome(&rt, b"\nshow\n", 1, (&[], &[11]), cut_off)?;
    // A byte for each call, and the end: the call after it would fail.
    let done = (Status::Done, "no history\n");
    check_outcome(&rt, b"undo\n", 1, (&[6], &[]), done)?;
    // The whole script in one call, and the end.
    check_outcome(&rt, b"undo\n", 65_536, (&[2], &[]), done)?;
    // A `quit` ends the session before the rest is asked for.
    let quit = (Status::Done, "no history\n");
    check_outcome(&rt, b"undo\nquit\nshow\n", 5, (&[2], &[]), quit)
}

// These bytes, and after them so many of a line.
fn with_line(alloc: Global, bytes: &[u8], count: usize) -> Result<Vec<u8>, AllocError> {
    let line = vec![in alloc; b'x'; count]?;
    let mut script = Vec::from_slice(alloc, bytes)?;
    script.extend_from_slice(&line)?;
    Ok(script)
}

#[test]
fn the_longest_line(rt: HostRuntime) -> Result<(), Fail> {
    let longest = with_line(rt.alloc(), b"", 1_048_576)?;
    let done = (Status::Done, "no command\n");
    check_outcome(&rt, &longest, 65_536, (&[], &[]), done)?;
    let longer = with_line(rt.alloc(), b"show\n", 1_048_577)?;
    let limit = (Status::Limit, "show 16\n<doc>Hello</doc>\nlimit line 2\n");
    check_outcome(&rt, &longer, 65_536, (&[], &[]), limit)
}

#[test]
fn a_drill(rt: HostRuntime) -> Result<(), Fail> {
    let drill = Given::plain(&["drill", "3"], &[]);
    let counts = b"drill 3 lines 7 ok 4 refused 3 open 1 checked 7\n";
    check_run(&rt, "drill 3", &drill, Status::Done, counts)?;
    for size in ["0", "20001", "007", "+3", "3 ", ""] {
        let words = ["drill", size];
        let given = Given::plain(&words, &[]);
        check_run(&rt, size, &given, Status::Usage, b"usage\n")?;
    }
    Ok(())
}
