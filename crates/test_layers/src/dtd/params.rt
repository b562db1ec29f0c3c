//! What parameter entities of a DTD are put in place as, or the first fault.

use crate::dtd::expectations::expect;
use pv_params::{ParamError, expand};
use std::alloc::Global;
use std::test::Fail;

fn word_of(fault: &ParamError) -> &'static str {
    match fault {
        ParamError::Conditional => "conditional",
        ParamError::External => "external",
        ParamError::Undeclared => "undeclared",
        ParamError::Recursive => "recursive",
        ParamError::Limit => "limit",
        ParamError::Syntax => "syntax",
        ParamError::NoMemory => "no memory",
    }
}

// Whether the bytes are put in place as this text, or have the fault of this word.
fn is_put(alloc: Global, bytes: &[u8], wanted: Result<&[u8], &str>) -> bool {
    match expand(alloc, bytes) {
        Ok(found) => wanted == Ok(found.as_slice()),
        Err(fault) => wanted == Err(word_of(&fault)),
    }
}

/// DTDs, each with what it is put in place as.
static IN_PLACE: [(&[u8], &[u8]); 8] = [
    (
        b"<!ENTITY % inline \"em|br\"><!ELEMENT p (#PCDATA|%inline;)*>",
        b"<!ELEMENT p (#PCDATA| em|br )*>",
    ),
    (
        b"<!ENTITY % m \"EMPTY\"><!ENTITY % m \"ANY\"><!ELEMENT a %m;>",
        b"<!ELEMENT a  EMPTY >",
    ),
    (
        b"<!ENTITY % xx '&#37;zz;'><!ENTITY % zz '&#60;!ELEMENT a EMPTY>'>%xx;",
        b"  <!ELEMENT a EMPTY>  ",
    ),
    (
        b"<!ENTITY % block \"p|list\">\n<!ELEMENT sec (title?, (%block;)*)>\n",
        b"\n<!ELEMENT sec (title?, ( p|list )*)>\n",
    ),
    // values are put in place without spaces, and keep references by name
    (
        b"<!ENTITY % a 'x'><!ENTITY % b '%a;&amp;%a;'><!ATTLIST e %b; 'y>%b;'>",
        b"<!ATTLIST e  x&amp;x  'y>%b;'>",
    ),
    // no item: the rest is copied unread
    (b"<!ELEMENT a (% b)>%c;", b"<!ELEMENT a (% b)>%c;"),
    (b"<!ENTITY % a ''> x%a;", b"  x%a;"),
    (b"<!ELEMENT a ANY", b"<!ELEMENT a ANY"),
];

/// The file's head, and what stands in literals, comments and processing instructions.
const FILE: &[u8] = b"\xEF\xBB\xBF<?xml encoding='UTF-8'?><!ENTITY g '%x;'><!-- %y; --><?p %z;?>";

#[test]
fn put_in_place(rt: HostRuntime) {
    for (bytes, text) in &IN_PLACE {
        expect(&rt, is_put(rt.alloc(), *bytes, Ok(*text)), bytes);
    }
    assert!(rt; is_put(rt.alloc(), FILE, Ok(FILE)));
}

/// DTDs, each with the word of its fault.
static FAULTS: [(&[u8], &str); 9] = [
    (b"<!ENTITY % r \"&#37;r;\">%r;", "recursive"),
    (
        b"<!ENTITY % r '&#37;s;'><!ENTITY % s '&#37;r;'>%r;",
        "recursive",
    ),
    (b"<!ELEMENT a (%b;)>", "undeclared"),
    (b"<!ENTITY % x ''><!ENTITY % x '%y;'>", "undeclared"),
    (b"<!ENTITY % e SYSTEM \"e.mod\">", "external"),
    (b"<![INCLUDE[]]>", "conditional"),
    (b"<!ENTITY % x \"<!ELEMENT a \">%x;EMPTY>", "syntax"),
    (b"<!ENTITY % x \"a > b\"><!ELEMENT a %x;>", "syntax"),
    (b"<!ENTITY % x '&#37;'><!ENTITY % y '%x;'>", "syntax"),
];

#[test]
fn faults(rt: HostRuntime) {
    for (bytes, word) in &FAULTS {
        expect(&rt, is_put(rt.alloc(), *bytes, Err(*word)), bytes);
    }
}

/// Entities, each of which refers twice to the one before.
const DOUBLING: &[u8] = b"<!ENTITY % e0 \"\">\
    <!ENTITY % e1 \"&#37;e0;&#37;e0;\">\
    <!ENTITY % e2 \"&#37;e1;&#37;e1;\">\
    <!ENTITY % e3 \"&#37;e2;&#37;e2;\">\
    <!ENTITY % e4 \"&#37;e3;&#37;e3;\">\
    <!ENTITY % e5 \"&#37;e4;&#37;e4;\">\
    <!ENTITY % e6 \"&#37;e5;&#37;e5;\">\
    <!ENTITY % e7 \"&#37;e6;&#37;e6;\">\
    <!ENTITY % e8 \"&#37;e7;&#37;e7;\">\
    <!ENTITY % e9 \"&#37;e8;&#37;e8;\">\
    <!ENTITY % e10 \"&#37;e9;&#37;e9;\">\
    <!ENTITY % e11 \"&#37;e10;&#37;e10;\">\
    <!ENTITY % e12 \"&#37;e11;&#37;e11;\">\
    <!ENTITY % e13 \"&#37;e12;&#37;e12;\">\
    <!ENTITY % e14 \"&#37;e13;&#37;e13;\">\
    <!ENTITY % e15 \"&#37;e14;&#37;e14;\">\
    <!ENTITY % e16 \"&#37;e15;&#37;e15;\">";

// They, and a reference to one.
fn doubling(alloc: Global, reference: &[u8]) -> Result<Vec<u8>, Fail> {
    let mut text = DOUBLING.to_vec(alloc)?;
    text.extend_from_slice(reference)?;
    Ok(text)
}

#[test]
fn many_references(rt: HostRuntime) -> Result<(), Fail> {
    let text = doubling(rt.alloc(), b"%e15;")?;
    let found = expand(rt.alloc(), text.as_slice())?;
    assert!(rt; found.len() == 131_070 && found.iter().all(|b| *b == b' '));
    Ok(())
}

#[test]
fn too_many_references(rt: HostRuntime) -> Result<(), Fail> {
    let text = doubling(rt.alloc(), b"%e16;")?;
    assert!(rt; is_put(rt.alloc(), text.as_slice(), Err("limit")));
    Ok(())
}
