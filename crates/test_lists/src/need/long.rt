//! How many elements are missing in documents, by two bounds, against `need` and `complete`.

use crate::calls::grammar_of;
use crate::need::completions::COMPLETED;
use crate::need::needs::{NEEDS, REFUSED, document, need_of};
use pv_long::laws::one_least_law;
use pv_long::{Completion, Deadline, LongError, Missing, NoDeadline, missing};
use pv_productive::Grammar;
use pv_read::read_doc;
use std::alloc::Global;
use std::test::Fail;
use test_fixture::dtds::ARTICLE;

// What is told of a document until a deadline.
fn told_until<D: Deadline>(
    alloc: Global,
    dtd: &str,
    root: &str,
    text: &str,
    deadline: &D,
) -> Result<Missing, Fail> {
    let grammar = grammar_of(alloc, dtd)?;
    let (root, bytes) = (root.as_bytes(), text.as_bytes());
    let doc = read_doc(alloc, bytes, root)?;
    one_least_law();
    Ok(missing(alloc, &grammar, root, &doc, bytes, deadline)?)
}

// What is told of a document without a deadline.
fn told_of(alloc: Global, dtd: &str, root: &str, text: &str) -> Result<Missing, Fail> {
    told_until(alloc, dtd, root, text, &NoDeadline)
}

// A deadline that is past.
struct Past;

impl Deadline for Past {
    fn is_past(&self) -> bool {
        true
    }
}

// Whether so many elements may be missing by what is told.
fn may_be(told: &Missing, number: u64) -> bool {
    match told {
        Missing::Exactly(completion) => u64::from(completion.count) == number,
        Missing::Between(least, completion) => {
            u64::from(*least) <= number && number <= u64::from(completion.count)
        }
    }
}

#[test]
fn missing_at_once(rt: HostRuntime) -> Result<(), Fail> {
    for (texts, _count) in &NEEDS {
        let (dtd, root, text) = *texts;
        let needed = need_of(rt.alloc(), *texts)?;
        let told = told_until(rt.alloc(), dtd, root, text, &Past)?;
        assert!(rt; may_be(&told, needed), "{text}");
    }
    Ok(())
}

// How many elements are missing, where the bounds meet.
fn exactly(told: &Missing) -> Option<u64> {
    match told {
        Missing::Exactly(completion) => Some(u64::from(completion.count)),
        Missing::Between(_least, _completion) => None,
    }
}

#[test]
fn missing_as_needed(rt: HostRuntime) -> Result<(), Fail> {
    for (texts, _count) in &NEEDS {
        let (dtd, root, text) = *texts;
        let found = exactly(&told_of(rt.alloc(), dtd, root, text)?);
        assert_eq!(rt; found, Some(need_of(rt.alloc(), *texts)?), "{text}");
    }
    Ok(())
}

// Whether a completion has this body and these marks.
fn is_so(completion: &Completion, body: &str, marks: &[u32]) -> bool {
    completion.count as usize == marks.len()
        && completion.marks.as_slice() == marks
        && completion.body.as_slice() == body.as_bytes()
}

// Whether the only completion of a document is told.
fn is_completion_told(told: &Missing, body: &str, marks: &[u32]) -> bool {
    match told {
        Missing::Exactly(completion) => is_so(completion, body, marks),
        Missing::Between(_least, _completion) => false,
    }
}

#[test]
fn completed_alike(rt: HostRuntime) -> Result<(), Fail> {
    for (texts, body, marks) in &COMPLETED {
        let (dtd, root, text) = *texts;
        let told = told_of(rt.alloc(), dtd, root, text)?;
        assert!(rt; is_completion_told(&told, *body, *marks), "{body}");
    }
    Ok(())
}

// How many elements are missing in a list that is too wide for `need`.
fn exactly_in_wide(alloc: Global) -> Result<Option<u64>, Fail> {
    let row = &REFUSED[1];
    let text = document(alloc, row)?;
    Ok(exactly(&told_of(alloc, row.dtd, row.root, text.as_str())?))
}

#[test]
fn wide_lists(rt: HostRuntime) -> Result<(), Fail> {
    assert_eq!(rt; exactly_in_wide(rt.alloc())?, Some(1));
    Ok(())
}

fn is_impossible(alloc: Global, grammar: &Grammar, root: &str, text: &str) -> Result<bool, Fail> {
    let (root, bytes) = (root.as_bytes(), text.as_bytes());
    let doc = read_doc(alloc, bytes, root)?;
    match missing(alloc, grammar, root, &doc, bytes, &NoDeadline) {
        Err(LongError::Impossible(path)) => Ok(path.places() == [0].as_slice()),
        Err(_) => Ok(false),
        Ok(_) => Ok(false),
    }
}

#[test]
fn impossible_lists(rt: HostRuntime) -> Result<(), Fail> {
    let grammar = grammar_of(rt.alloc(), ARTICLE)?;
    assert!(rt; is_impossible(rt.alloc(), &grammar, "doc", "<doc><sec/><head/></doc>")?);
    Ok(())
}
