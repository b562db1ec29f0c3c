//! What texts of DTDs mean: a DTD, or the first item in fault.

use crate::dtd::expectations::expect;
use pv_dtd::{Dtd, DtdError, read_dtd};
use pv_model::{ContentModel, NameId};
use std::alloc::Global;
use std::test::Fail;

const TEXT: &str = "\u{FEFF}<?xml encoding='UTF-8'?><!-- - --><?x y?>
        <!ELEMENT a (b, (c | a)*)><!ATTLIST a x CDATA '>%'><!ELEMENT b (#PCDATA | é)*>
        <!ELEMENT d EMPTY><!ENTITY e \"%\"><!NOTATION n SYSTEM ''><!ELEMENT f ANY> ";

/// Its names, in the order of their numbers, each with the kind of its model.
static NAMES: [(u32, &str, &str); 6] = [
    (0, "a", "children"),
    (1, "b", "mixed"),
    (2, "d", "empty"),
    (3, "f", "any"),
    (4, "c", "none"),
    (5, "é", "none"),
];

fn kind_of(model: Option<&ContentModel>) -> &'static str {
    match model {
        Some(ContentModel::Children(_)) => "children",
        Some(ContentModel::Mixed(_)) => "mixed",
        Some(ContentModel::Empty) => "empty",
        Some(ContentModel::Any) => "any",
        None => "none",
    }
}

// Whether the name has this number, and a model of this kind.
fn is_named(dtd: &Dtd, number: u32, name: &str, kind: &str) -> bool {
    number < dtd.names()
        && dtd.name_of(NameId(number)) == name.as_bytes()
        && kind_of(dtd.model_of(NameId(number))) == kind
}

#[test]
fn names(rt: HostRuntime) -> Result<(), Fail> {
    let dtd = read_dtd(rt.alloc(), TEXT.as_bytes())?;
    for (number, name, kind) in &NAMES {
        expect(&rt, is_named(&dtd, *number, *name, *kind), name);
        expect(
            &rt,
            dtd.name_id(name.as_bytes()) == Some(NameId(*number)),
            name,
        );
    }
    assert!(rt; dtd.name_id(b"x").is_none());
    assert!(rt; dtd.count() == 4 && dtd.names() == 6);
    assert!(rt; dtd.parts() == 7 && dtd.columns() == 13);
    Ok(())
}

/// An element declaration with 65 open parentheses.
const DEEP: &[u8] =
    b"<!ELEMENT a (((((((((((((((((((((((((((((((((((((((((((((((((((((((((((((((((";

fn word_of(fault: &DtdError) -> (&'static str, u64) {
    match fault {
        DtdError::Syntax(item) => ("syntax", *item),
        DtdError::Twice(item) => ("twice", *item),
        DtdError::MixedTwice(item) => ("mixed twice", *item),
        DtdError::Parameter(item) => ("parameter", *item),
        DtdError::Limit(item) => ("limit", *item),
        DtdError::NoMemory => ("no memory", 0),
    }
}

/// Texts, each with the word of its fault, and how many whole items stand before that.
static FAULTS: [(&[u8], &str, u64); 5] = [
    (b"<!ELEMENT a (b|c,d)>", "syntax", 0),
    (b"<!--x--><!ELEMENT a>", "syntax", 1),
    (b"<?x?><!ELEMENT a (%b;)>", "parameter", 1),
    (b"<!ELEMENT a ANY><!ELEMENT a EMPTY>", "twice", 1),
    (b"<!ELEMENT a (#PCDATA|b|b)*>", "mixed twice", 0),
];

// The word of the text's fault, and how many whole items stand before that.
fn fault_of(alloc: Global, text: &[u8]) -> (&'static str, u64) {
    match read_dtd(alloc, text) {
        Ok(_) => ("none", 0),
        Err(fault) => word_of(&fault),
    }
}

#[test]
fn faults(rt: HostRuntime) {
    for (text, word, items) in &FAULTS {
        expect(&rt, fault_of(rt.alloc(), *text) == (*word, *items), text);
    }
    assert!(rt; fault_of(rt.alloc(), DEEP) == ("limit", 0));
}
