//! Lists at the limits of width and one past them: for verdicts, under a DTD of 4,000 names, and
//! for weights.

use crate::runs::rows::{check_rows, check_session};
use pv_cli::Status;
use std::alloc::{AllocError, Global};
use std::test::Fail;
use std::thread::Threads;
use test_fixture::documents::repeated;
use test_fixture::dtds::ARTICLE;

// An element of text and 4,000 names, and what else is declared. The names and the parts are 8,001
// in all, so that a list may have 8,386 tokens.
fn many_names(alloc: Global, declared: &str) -> Result<String, AllocError> {
    let mut text = String::from_str(alloc, "<!ELEMENT r (#PCDATA")?;
    for before in 0..4_000u32 {
        text.push_str(format!(in alloc; "|a{}", before + 1)?.as_str())?;
    }
    text.push_str(")*>")?;
    text.push_str(declared)?;
    Ok(text)
}

// Runs `check` on a list of so many of these tokens.
fn check_list<R: AllocGlobal + Threads + Sync>(
    rt: &R,
    dtd: &str,
    token: &str,
    count: usize,
    ends: (Status, &str),
) -> Result<(), Fail> {
    let doc = repeated(rt.alloc(), count, "<r>", token, "</r>")?;
    check_rows(rt, "check", &[(dtd, "r", doc.as_str(), ends.0, ends.1)])
}

#[test]
fn lists_among_many_names(rt: HostRuntime) -> Result<(), Fail> {
    // Texts, between which comments stand; and elements.
    for (declared, token) in [("", "x<!---->"), ("<!ELEMENT a1 EMPTY>", "<a1/>")] {
        let dtd = many_names(rt.alloc(), declared)?;
        let dtd = dtd.as_str();
        check_list(&rt, dtd, token, 8_386, (Status::Done, "valid\n"))?;
        check_list(&rt, dtd, token, 8_387, (Status::Limit, "limit width 0\n"))?;
    }
    Ok(())
}

#[test]
fn one_text_more(rt: HostRuntime) -> Result<(), Fail> {
    let alloc = rt.alloc();
    let dtd = many_names(alloc, "")?;
    let widest = repeated(alloc, 8_386, "<r>", "x<!---->", "</r>")?;
    let script = b"addtext 0 0 y\nhistory\nverdicts\n";
    let replies = b"no limit\nhistory 0\nverdicts 2\n. valid 0\n0 valid 0\n";
    let texts = (dtd.as_str(), "r", widest.as_str());
    check_session(&rt, "one text more", texts, script, replies, 1)
}

// One section more is too many, as the rows of `need` say.
#[test]
fn the_widest_list_for_weights(rt: HostRuntime) -> Result<(), Fail> {
    let doc = repeated(rt.alloc(), 1_056, "<doc>", "<sec/>", "</doc>")?;
    let texts = (ARTICLE, "doc", doc.as_str());
    check_session(&rt, "the widest list", texts, b"need\n", b"need 1\n", 1)
}
