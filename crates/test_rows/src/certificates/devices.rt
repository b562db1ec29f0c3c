//! Each command where a device fails, at each of its calls.

use crate::runs::rows::check_run;
use crate::runs::runs::Given;
use pv_cli::Status;
use std::test::Fail;
use std::thread::Threads;

/// A command: its words, the files that it names in their order, what its input holds, and what it
/// answers where no device fails.
struct Command {
    words: &'static [&'static str],
    files: &'static [(&'static str, &'static str)],
    script: &'static str,
    status: Status,
    output: &'static str,
}

const GUIDE: &str = "<!ELEMENT doc (head, sec*)><!ELEMENT head (#PCDATA)><!ELEMENT sec EMPTY>";

const HELLO: &str = "<doc>Hello</doc>";

const SWAPPED: &str = "<doc><sec/><head/></doc>";

const DENIAL: &str = "pvdeny 1\nlist 0\ncause word\nc 0 1 2 2\nc 1 0 1 2\nc 2 0 1 2\nn 0 1 2 2\n\
    n 1 0 2 2\nn 2 1 1 2\np 0 1 2 2\np 1 0 2 2\np 2 1 1 2\np 3 1 1 2\ns 1 1 2 2\ns 2 1 1 2\nend\n";

const ANYTHING: &str = "<!ELEMENT a ANY>";

const PACK: &str = "pvpack 1\ntotal 0\nbody 4\n<a/>\nend\n";

static COMMANDS: [Command; 10] = [
    Command {
        words: &["dtd", "a.dtd"],
        files: &[("a.dtd", GUIDE)],
        script: "",
        status: Status::Done,
        output: "doc children 2\nhead mixed 1\nsec empty 1\ntypes 3 parts 4 undeclared 0\n",
    },
    Command {
        words: &["valid", "a.dtd", "doc", "d.xml"],
        files: &[("a.dtd", GUIDE), ("d.xml", HELLO)],
        script: "",
        status: Status::Negative,
        output: "invalid 0\n",
    },
    Command {
        words: &["check", "a.dtd", "doc", "d.xml"],
        files: &[("a.dtd", GUIDE), ("d.xml", HELLO)],
        script: "",
        status: Status::Done,
        output: "possible 1\n",
    },
    Command {
        words: &["session", "a.dtd", "doc", "d.xml"],
        files: &[("a.dtd", GUIDE), ("d.xml", HELLO)],
        script: "need\n",
        status: Status::Done,
        output: "need 1\n",
    },
    Command {
        words: &["complete", "a.dtd", "a", "d.xml"],
        files: &[("a.dtd", ANYTHING), ("d.xml", "<a/>")],
        script: "",
        status: Status::Done,
        output: PACK,
    },
    Command {
        words: &["verify", "a.dtd", "a", "d.xml", "a.pack"],
        files: &[("a.dtd", ANYTHING), ("d.xml", "<a/>"), ("a.pack", PACK)],
        script: "",
        status: Status::Done,
        output: "accepted 0\n",
    },
    Command {
        words: &["why", "a.dtd", "doc", "d.xml"],
        files: &[("a.dtd", GUIDE), ("d.xml", SWAPPED)],
        script: "",
        status: Status::Done,
        output: DENIAL,
    },
    Command {
        words: &["deny", "a.dtd", "doc", "d.xml", "a.denial"],
        files: &[("a.dtd", GUIDE), ("d.xml", SWAPPED), ("a.denial", DENIAL)],
        script: "",
        status: Status::Done,
        output: "denied 0\n",
    },
    Command {
        words: &["standoff", "a.dtd", "doc", "a.txt", "ranges.txt"],
        files: &[
            ("a.dtd", GUIDE),
            ("a.txt", "Hello"),
            ("ranges.txt", "0 5 0 head\n"),
        ],
        script: "",
        status: Status::Done,
        output: "valid\nshow 29\n<doc><head>Hello</head></doc>\n",
    },
    Command {
        words: &["drill", "30"],
        files: &[],
        script: "",
        status: Status::Done,
        output: "drill 30 lines 70 ok 40 refused 30 open 10 checked 70\n",
    },
];

// The numbers of the calls that fail: of the shelf, the input and the output.
type Failing<'a> = (&'a [u64], &'a [u64], &'a [u64]);

fn check_failing<R: AllocGlobal + Threads + Sync>(
    rt: &R,
    command: &Command,
    failing: Failing<'_>,
    status: Status,
    output: &[u8],
) -> Result<(), Fail> {
    let given = Given {
        input: command.script.as_bytes(),
        failing_fetches: failing.0,
        failing_fills: failing.1,
        failing_puts: failing.2,
        ..Given::plain(command.words, command.files)
    };
    check_run(rt, command.output, &given, status, output)
}

// A fetch that fails: nothing is written. The fetch after the last isn't asked for.
fn check_fetches<R: AllocGlobal + Threads + Sync>(rt: &R, command: &Command) -> Result<(), Fail> {
    let files = command.files.len() as u64;
    for k in 0..files {
        check_failing(rt, command, (&[k], &[], &[]), Status::ReadFault, b"")?;
    }
    let output = command.output.as_bytes();
    check_failing(rt, command, (&[files], &[], &[]), command.status, output)
}

// A fill that fails: of a script of one line, the reply is written where the end alone isn't seen.
// Where there is no script, the input isn't asked.
fn check_fills<R: AllocGlobal + Threads + Sync>(rt: &R, command: &Command) -> Result<(), Fail> {
    let script = command.script.len() as u64;
    let output = command.output.as_bytes();
    if script == 0 {
        return check_failing(rt, command, (&[], &[0], &[]), command.status, output);
    }
    for k in 0..script {
        check_failing(rt, command, (&[], &[k], &[]), Status::ReadFault, b"")?;
    }
    check_failing(
        rt,
        command,
        (&[], &[script], &[]),
        Status::ReadFault,
        output,
    )
}

// A put of one byte that fails: what comes before is written.
fn check_puts<R: AllocGlobal + Threads + Sync>(rt: &R, command: &Command) -> Result<(), Fail> {
    let output = command.output.as_bytes();
    for k in 0..output.len() {
        let failing: [u64; 1] = [k as u64];
        check_failing(
            rt,
            command,
            (&[], &[], &failing),
            Status::WriteFault,
            &output[..k],
        )?;
    }
    let behind: [u64; 1] = [output.len() as u64];
    check_failing(rt, command, (&[], &[], &behind), command.status, output)
}

#[test]
fn failing_devices(rt: HostRuntime) -> Result<(), Fail> {
    for command in &COMMANDS {
        check_fetches(&rt, command)?;
        check_fills(&rt, command)?;
        check_puts(&rt, command)?;
    }
    Ok(())
}
