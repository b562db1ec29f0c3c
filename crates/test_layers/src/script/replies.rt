//! Replies as they are written.

use pv_chars::{List, bytes_of};
use pv_edit::{Done, Edit, Reason, VerdictRow};
use pv_script::{Reply, okay_text, reply_text};
use pv_tree::{Path, Verdict};
use std::alloc::Global;
use std::test::Fail;
use test_fixture::rows::expect;

// Whether the reply is written so.
fn is_written(alloc: Global, reply: &Reply, text: &str) -> bool {
    match reply_text(alloc, reply) {
        Ok(written) => written.as_slice() == text.as_bytes(),
        Err(_) => false,
    }
}

/// Replies without a path and without bytes.
const SHORT: [(Reply, &str); 7] = [
    (Reply::Shape(Reason::CloseMark), "no shape close-mark\n"),
    (Reply::NoHistory, "no history\n"),
    (Reply::Limit, "no limit\n"),
    (Reply::NoMemory, "no memory\n"),
    (Reply::NoCommand, "no command\n"),
    (Reply::Need(7), "need 7\n"),
    (Reply::Heavy, "no heavy\n"),
];

#[test]
fn short_replies(rt: HostRuntime) -> Result<(), Fail> {
    for (reply, text) in &SHORT {
        expect(is_written(rt.alloc(), reply, *text), text)?;
    }
    Ok(())
}

#[test]
fn replies_with_paths(rt: HostRuntime) -> Result<(), Fail> {
    let reply = Reply::Impossible(Path::new(rt.alloc(), &[0, 3])?);
    assert!(rt; is_written(rt.alloc(), &reply, "no impossible 0.3\n"));
    let reply = Reply::Wide(Path::new(rt.alloc(), &[])?);
    assert!(rt; is_written(rt.alloc(), &reply, "no wide .\n"));
    Ok(())
}

#[test]
fn replies_with_verdicts(rt: HostRuntime) -> Result<(), Fail> {
    let row = VerdictRow {
        path: Path::new(rt.alloc(), &[0])?,
        verdict: Verdict::Possible,
        stamp: 12,
    };
    let reply = Reply::Verdicts(List::of(vec![in rt.alloc(); row]?));
    assert!(rt; is_written(rt.alloc(), &reply, "verdicts 1\n0 possible 12\n"));
    Ok(())
}

#[test]
fn replies_with_bytes(rt: HostRuntime) -> Result<(), Fail> {
    let reply = Reply::Show(bytes_of(rt.alloc(), b"<doc>Hello</doc>")?);
    assert!(rt; is_written(rt.alloc(), &reply, "show 16\n<doc>Hello</doc>\n"));
    let reply = Reply::Completed(2, bytes_of(rt.alloc(), b"<a/>")?);
    assert!(rt; is_written(rt.alloc(), &reply, "completed 2 4\n<a/>\n"));
    Ok(())
}

#[test]
fn replies_with_edits(rt: HostRuntime) -> Result<(), Fail> {
    let edit = Edit::Unwrap {
        path: Path::new(rt.alloc(), &[0, 1])?,
    };
    let reply = Reply::History(List::of(vec![in rt.alloc(); edit]?));
    assert!(rt; is_written(rt.alloc(), &reply, "history 1\nunwrap 0.1\n"));
    Ok(())
}

#[test]
fn replies_with_names(rt: HostRuntime) -> Result<(), Fail> {
    let mut names = Vec::new(rt.alloc());
    for name in [b"p".as_slice(), b"em".as_slice()] {
        names.push(bytes_of(rt.alloc(), name)?)?;
    }
    let reply = Reply::Offer(List::of(names));
    assert!(rt; is_written(rt.alloc(), &reply, "offer 2\np\nem\n"));
    Ok(())
}

const DONE: Done = Done {
    checked: 4_294_967_295,
    left: 18_446_744_073_709_551_615,
    bad: 18_446_744_073_709_551_614,
};

const DONE_TEXT: &str = "ok 4294967295 18446744073709551615 18446744073709551614\n";

#[test]
fn okay(rt: HostRuntime) {
    let mut room = [0; 64];
    let end = okay_text(&DONE, &mut room);
    assert!(rt; &room[..end] == DONE_TEXT.as_bytes());
    assert!(rt; is_written(rt.alloc(), &Reply::Okay(DONE), DONE_TEXT));
}
