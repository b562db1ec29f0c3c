//! Completions with their tables, against each of both made alone.

use crate::calls::{Texts, grammar_of};
use crate::need::completions::{COMPLETED, completion_of};
use pv_complete::{Completion, TabledCompletion, complete_with_tables, tables};
use pv_productive::Grammar;
use pv_read::read_doc;
use pv_span::{Table, Tables};
use std::alloc::Global;
use std::test::Fail;
use test_fixture::documents::document_of;

fn is_same_completion(one: &Completion, other: &Completion) -> bool {
    one.count == other.count
        && one.marks.as_slice() == other.marks.as_slice()
        && one.body.as_slice() == other.body.as_slice()
}

fn is_same_table(one: &Table, other: &Table) -> bool {
    one.path.places() == other.path.places() && one.entries.as_slice() == other.entries.as_slice()
}

fn are_same_tables(ones: &Tables, others: &Tables) -> bool {
    let (ones, others) = (ones.as_slice(), others.as_slice());
    if ones.len() != others.len() {
        return false;
    }
    for (one, other) in ones.iter().zip(others) {
        if !is_same_table(one, other) {
            return false;
        }
    }
    true
}

// A completion of a document with its tables.
fn tabled_of(
    alloc: Global,
    grammar: &Grammar,
    root: &str,
    text: &str,
) -> Result<TabledCompletion, Fail> {
    let root = root.as_bytes();
    let doc = read_doc(alloc, text.as_bytes(), root)?;
    Ok(complete_with_tables(alloc, grammar, root, &doc)?)
}

// Whether these are the tables of a document, made alone.
fn are_tables_of(alloc: Global, texts: Texts, found: &Tables) -> Result<bool, Fail> {
    let (dtd, root, text) = texts;
    let grammar = grammar_of(alloc, dtd)?;
    let doc = document_of(alloc, text, root)?;
    let alone = tables(alloc, &grammar, root.as_bytes(), &doc)?;
    Ok(are_same_tables(found, &alone))
}

// Whether the completion is this one, and its tables those of the document.
fn is_each(
    alloc: Global,
    texts: Texts,
    both: &TabledCompletion,
    alone: &Completion,
) -> Result<bool, Fail> {
    Ok(is_same_completion(&both.completion, alone) && are_tables_of(alloc, texts, &both.tables)?)
}

fn is_both(alloc: Global, texts: Texts) -> Result<bool, Fail> {
    let (dtd, root, text) = texts;
    let grammar = grammar_of(alloc, dtd)?;
    let both = tabled_of(alloc, &grammar, root, text)?;
    let alone = completion_of(alloc, &grammar, root, text)?;
    is_each(alloc, texts, &both, &alone)
}

#[test]
fn completions_with_tables(rt: HostRuntime) -> Result<(), Fail> {
    for (texts, body, _marks) in &COMPLETED {
        assert!(rt; is_both(rt.alloc(), *texts)?, "{body}");
    }
    Ok(())
}
