//! Productive names and their least sizes.

use crate::dtd::expectations::expect;
use pv_dtd::read_dtd;
use pv_model::NameId;
use pv_productive::{Grammar, build};
use std::alloc::Global;
use std::process::Abort;
use std::test::Fail;

// The grammar of a DTD, in a box, which one call drops.
fn grammar_of(alloc: Global, text: &str) -> Result<Box<Grammar>, Fail> {
    let dtd = read_dtd(alloc, text.as_bytes())?;
    Ok(Box::new(alloc, build(alloc, dtd)?)?)
}

// Whether the least tree of the name has this size; none where it isn't productive.
fn is_size(grammar: &Grammar, name: usize, size: Option<u64>) -> bool {
    if name >= grammar.dtd().names() as usize {
        return false;
    }
    let id = NameId(name as u32);
    grammar.least_tree(id) == size && grammar.is_productive(id) == size.is_some()
}

// The first names have these sizes.
fn are_sizes(rt: &impl Abort, grammar: &Grammar, wanted: &[Option<u64>], text: &str) {
    for (name, size) in wanted.iter().enumerate() {
        expect(rt, is_size(grammar, name, *size), &text);
    }
}

/// DTDs, each with the sizes of its names.
static SIZES: [(&str, &[Option<u64>]); 7] = [
    // Recursion: through a name, a plus, an option and a star.
    ("<!ELEMENT a (a)>", &[None]),
    ("<!ELEMENT a (b+)><!ELEMENT b (a)>", &[None, None]),
    ("<!ELEMENT a (a?)>", &[Some(1)]),
    (
        "<!ELEMENT a (a*, b)><!ELEMENT b EMPTY>",
        &[Some(2), Some(1)],
    ),
    // Of a choice the least, whichever it is, and of a sequence all.
    (
        "<!ELEMENT a (b | c)><!ELEMENT b (c, c)><!ELEMENT c EMPTY>",
        &[Some(2), Some(3), Some(1)],
    ),
    (
        "<!ELEMENT a (b | (a, c))><!ELEMENT b ((c, a) | d)><!ELEMENT c EMPTY><!ELEMENT d (c)>",
        &[Some(4), Some(3), Some(1), Some(2)],
    ),
    // Text needs no element, and a name that is only mentioned has none.
    (
        "<!ELEMENT a (#PCDATA | x)*><!ELEMENT b ANY><!ELEMENT c (b, x)>",
        &[Some(1), Some(1), None, None],
    ),
];

#[test]
fn least_trees(rt: HostRuntime) -> Result<(), Fail> {
    for (text, wanted) in &SIZES {
        let grammar = grammar_of(rt.alloc(), *text)?;
        expect(&rt, grammar.dtd().names() as usize == wanted.len(), text);
        expect(
            &rt,
            grammar.flat().parts().len() == grammar.dtd().parts() as usize,
            text,
        );
        are_sizes(&rt, &grammar, *wanted, *text);
    }
    Ok(())
}

// Each type needs two of the next one.
fn doubling(alloc: Global) -> Result<String, Fail> {
    let mut text = String::new(alloc);
    for k in 0..20u32 {
        let line = format!(in alloc; "<!ELEMENT e{k} (e{}, e{})>", k + 1, k + 1)?;
        text.push_str(line.as_str())?;
    }
    text.push_str("<!ELEMENT e20 EMPTY>")?;
    Ok(text)
}

/// 2^21 - 1 and 2^20 - 1 elements are more than 1,000,000, and 2^19 - 1 are not.
static MANY: [Option<u64>; 3] = [Some(1_000_001), Some(1_000_001), Some(524_287)];

#[test]
fn more_than_are_counted(rt: HostRuntime) -> Result<(), Fail> {
    let text = doubling(rt.alloc())?;
    let grammar = grammar_of(rt.alloc(), text.as_str())?;
    assert!(rt; grammar.dtd().names() == 21);
    are_sizes(&rt, &grammar, &MANY, "doubling");
    Ok(())
}
