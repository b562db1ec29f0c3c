//! The largest drill: as a command, and its script in a session, line by line.

ghost use Rattle.std.specs.Prelude.{◌≡◌, ◌≤◌, ◌%◌};

use crate::runs::rows::{check_run, check_session};
use crate::runs::runs::Given;
use pv_cli::Status;
use pv_drill::{drill_doc, drill_dtd, drill_line};
use std::alloc::Global;
use std::test::Fail;

// How many sections the document has.
const SECTIONS: u32 = 20_000;

// Appends a line of the script.
fn push_line(script: &mut Vec<u8>, alloc: Global, k: u32, which: u32) -> Result<(), Fail>
    requires some { 1 ≤ k }
    requires most { k ≤ 20000 }
    requires line { which ≤ 2 }
    requires third { which ≡ 2 → k % 3 ≡ 0 }
{
    script.extend_from_slice(&drill_line(alloc, k, which)?)?;
    script.push(b'\n')?;
    Ok(())
}

// The lines for all sections.
fn script(alloc: Global) -> Result<Vec<u8>, Fail> {
    let mut script = Vec::new(alloc);
    for before in 0..SECTIONS {
        let k = before + 1;
        push_line(&mut script, alloc, k, 0)?;
        push_line(&mut script, alloc, k, 1)?;
        if k % 3 == 0 {
            push_line(&mut script, alloc, k, 2)?;
        }
    }
    Ok(script)
}

// Their replies. All sections are Possible at first; each wrap that is made takes one away, and
// each undo gives one back.
fn replies(alloc: Global) -> Result<String, Fail> {
    let mut replies = String::new(alloc);
    for before in 0..SECTIONS {
        let k = before + 1;
        let open = (SECTIONS + before / 3).saturating_sub(k);
        let both = format!(in alloc; "no impossible 0.{k}.0\nok 2 {open} 0\n")?;
        replies.push_str(both.as_str())?;
        if k % 3 == 0 {
            let undone = format!(in alloc; "ok 1 {} 0\n", open + 1)?;
            replies.push_str(undone.as_str())?;
        }
    }
    Ok(replies)
}

#[test]
fn the_largest_session(rt: HostRuntime) -> Result<(), Fail> {
    let alloc = rt.alloc();
    let dtd = str::from_utf8(drill_dtd()).ok().ok_or("the DTD")?;
    let text = drill_doc(alloc, SECTIONS)?;
    let doc = str::from_utf8(&text).ok().ok_or("the document")?;
    let script = script(alloc)?;
    let replies = replies(alloc)?;
    let texts = (dtd, "doc", doc);
    check_session(
        &rt,
        "the largest session",
        texts,
        &script,
        replies.as_bytes(),
        65_536,
    )
}

#[test]
fn the_largest_drill(rt: HostRuntime) -> Result<(), Fail> {
    let given = Given::plain(&["drill", "20000"], &[]);
    let counts = b"drill 20000 lines 46666 ok 26666 refused 20000 open 6666 checked 46666\n";
    check_run(&rt, "drill 20000", &given, Status::Done, counts)
}
