//! Events of documents.

use pv_dtd::read_dtd;
use pv_flat::{Event, Events, valid_events};
use pv_read::DocError;
use std::alloc::Global;
use std::test::Fail;

// A letter for each kind of event.
fn letter_of(event: &Event<'_>) -> u8 {
    match event {
        Event::Start { .. } => b'<',
        Event::Stop => b'>',
        Event::Text(_) => b't',
        Event::Cdata(_) => b'c',
        Event::Misc(_) => b'm',
    }
}

// The letter of the next event, or `.` where there is none.
fn next_letter(events: &mut Events<'_>) -> Result<u8, DocError> {
    match events.next()? {
        Some(event) => Ok(letter_of(&event)),
        None => Ok(b'.'),
    }
}

// Whether the next events have these letters.
fn are_next(events: &mut Events<'_>, letters: &[u8]) -> Result<bool, DocError> {
    for letter in letters {
        if next_letter(events)? != *letter {
            return Ok(false);
        }
    }
    Ok(true)
}

// Whether this stands before the root, and this is left.
fn are_between(events: &Events<'_>, before: &[u8], rest: &[u8]) -> bool {
    events.before() == before && events.rest() == rest
}

// A document with each kind of event.
const LETTER: &[u8] = b"<!--c--><a x='1'>t<b/><![CDATA[d]]><?p?></a>\n";

fn is_letter_told(alloc: Global) -> Result<bool, DocError> {
    let mut events = Events::new(alloc, LETTER, b"a")?;
    let is_told = are_next(&mut events, b"<t<>cm>.")?
        && are_between(&events, b"<!--c-->", b"\n")
        && are_next(&mut events, b".")?
        && are_between(&events, b"<!--c-->", b"\n");
    Ok(is_told)
}

// A document with a fault after two events.
const FAULTY: &[u8] = b"<?p?><a><b></a>";

fn is_fault_told(events: &mut Events<'_>) -> bool {
    let is_told = matches!(events.next(), Err(DocError::Mismatch(3)));
    is_told && are_between(events, b"<?p?>", b"</a>")
}

fn is_fault_told_again(alloc: Global) -> Result<bool, DocError> {
    let mut events = Events::new(alloc, FAULTY, b"a")?;
    let is_begun = are_between(&events, b"", FAULTY) && are_next(&mut events, b"<<")?;
    let is_told = is_fault_told(&mut events);
    let is_told_again = is_fault_told(&mut events) && is_fault_told(&mut events);
    Ok(is_begun && is_told && is_told_again)
}

#[test]
fn events_in_order(rt: HostRuntime) -> Result<(), Fail> {
    assert!(rt; is_letter_told(rt.alloc())?, "each kind of event");
    assert!(rt; is_fault_told_again(rt.alloc())?, "a fault");
    Ok(())
}

// So many elements, each in the one before it.
fn nested(alloc: Global, depth: usize) -> Result<Vec<u8>, DocError> {
    let mut text = Vec::new(alloc);
    for _ in 0..depth {
        text.extend_from_slice(b"<a>")?;
    }
    for _ in 0..depth {
        text.extend_from_slice(b"</a>")?;
    }
    Ok(text)
}

// Whether the next events have this letter, so many times.
fn are_all(events: &mut Events<'_>, letter: u8, count: u32) -> Result<bool, DocError> {
    for _ in 0..count {
        if next_letter(events)? != letter {
            return Ok(false);
        }
    }
    Ok(true)
}

fn is_nest_told(alloc: Global, text: &[u8]) -> Result<bool, DocError> {
    let mut events = Events::new(alloc, text, b"a")?;
    let is_told = are_all(&mut events, b'<', 600)?
        && are_all(&mut events, b'>', 600)?
        && are_next(&mut events, b".")?;
    Ok(is_told)
}

fn is_valid(alloc: Global, text: &[u8]) -> Result<bool, Fail> {
    let dtd = read_dtd(alloc, b"<!ELEMENT a (a?)>")?;
    Ok(valid_events(alloc, &dtd, b"a", text)?)
}

fn is_mismatch(alloc: Global, text: &[u8]) -> Result<bool, Fail> {
    let dtd = read_dtd(alloc, b"<!ELEMENT a (a?)>")?;
    Ok(matches!(
        valid_events(alloc, &dtd, b"a", text),
        Err(DocError::Mismatch(1))
    ))
}

// Elements deeper than those of a tree.
#[test]
fn any_depth(rt: HostRuntime) -> Result<(), Fail> {
    let alloc = rt.alloc();
    let text = nested(alloc, 600)?;
    assert!(rt; is_nest_told(alloc, &text)?);
    assert!(rt; is_valid(alloc, &text)?);
    Ok(())
}

#[test]
fn validity(rt: HostRuntime) -> Result<(), Fail> {
    assert!(rt; !is_valid(rt.alloc(), b"<a><a/><a/></a>")?, "two kids");
    assert!(rt;
        is_mismatch(rt.alloc(), b"<a></b>")?,
        "an end tag of another name"
    );
    Ok(())
}
