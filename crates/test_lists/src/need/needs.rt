//! How many elements are missing in documents, and why nothing is told of some.

use crate::calls::{Texts, grammar_of};
use pv_complete::{NeedError, need};
use std::alloc::{AllocError, Global};
use std::test::Fail;
use test_fixture::documents::{document_of, repeated};
use test_fixture::dtds::{ARTICLE, DOUBLING, NESTED, REALISTIC};

/// Documents, and how many elements each misses.
pub static NEEDS: [(Texts, u64); 12] = [
    ((ARTICLE, "doc", "<doc>Hello</doc>"), 2),
    ((ARTICLE, "doc", "<doc><em>x</em></doc>"), 3),
    ((ARTICLE, "doc", "<doc><p>a</p><title>b</title></doc>"), 3),
    ((ARTICLE, "doc", "<p>a</p>"), 3),
    ((ARTICLE, "doc", "<doc><!--c--> </doc>"), 2),
    ((ARTICLE, "doc", "<doc><head/><sec>&#32;</sec></doc>"), 1),
    ((ARTICLE, "doc", "<doc><head/><sec> </sec></doc>"), 0),
    ((ARTICLE, "doc", "<doc><head>He</head>llo</doc>"), 2),
    ((ARTICLE, "doc", "<doc/>"), 2),
    (
        (
            ARTICLE,
            "doc",
            "<doc><head/><sec><list/></sec><sec><list><item/></list></sec></doc>",
        ),
        7,
    ),
    ((ARTICLE, "doc", REALISTIC), 1),
    ((NESTED, "x", "<x><y/><y/><y/></x>"), 3),
];

/// How many elements a document misses.
pub fn need_of(alloc: Global, texts: Texts) -> Result<u64, Fail> {
    let (dtd, root, text) = texts;
    let grammar = grammar_of(alloc, dtd)?;
    let doc = document_of(alloc, text, root)?;
    Ok(need(alloc, &grammar, root.as_bytes(), &doc)?)
}

#[test]
fn needs(rt: HostRuntime) -> Result<(), Fail> {
    for (texts, wanted) in &NEEDS {
        assert_eq!(rt; need_of(rt.alloc(), *texts)?, *wanted, "{}", texts.2);
    }
    Ok(())
}

/// A document that is refused: a DTD, a root, what stands before and after so many sections, a
/// word for why it is refused, and the path that is told.
pub struct Refused {
    pub dtd: &'static str,
    pub root: &'static str,
    before: &'static str,
    sections: usize,
    behind: &'static str,
    why: &'static str,
    places: &'static [u32],
}

/// Documents of which nothing is told.
pub static REFUSED: [Refused; 3] = [
    Refused {
        dtd: ARTICLE,
        root: "doc",
        before: "<doc><sec/><head/>",
        sections: 0,
        behind: "</doc>",
        why: "impossible",
        places: &[0],
    },
    // Too wide for weights.
    Refused {
        dtd: ARTICLE,
        root: "doc",
        before: "<doc>",
        sections: 1057,
        behind: "</doc>",
        why: "wide",
        places: &[0],
    },
    Refused {
        dtd: DOUBLING,
        root: "t0",
        before: "<t0/>",
        sections: 0,
        behind: "",
        why: "heavy",
        places: &[],
    },
];

// Whether a refusal is told by this word, and this path where it has one.
fn is_told(refused: &NeedError, why: &str, places: &[u32]) -> bool {
    match refused {
        NeedError::Impossible(path) => why == "impossible" && path.places() == places,
        NeedError::TooWide(path) => why == "wide" && path.places() == places,
        NeedError::TooHeavy => why == "heavy" && places.is_empty(),
        NeedError::TooMany => why == "many" && places.is_empty(),
        NeedError::NoMemory => false,
    }
}

/// The text of such a document.
pub fn document(alloc: Global, row: &Refused) -> Result<String, AllocError> {
    repeated(alloc, row.sections, row.before, "<sec/>", row.behind)
}

fn is_refused(alloc: Global, row: &Refused) -> Result<bool, Fail> {
    let grammar = grammar_of(alloc, row.dtd)?;
    let text = document(alloc, row)?;
    let doc = document_of(alloc, text.as_str(), row.root)?;
    match need(alloc, &grammar, row.root.as_bytes(), &doc) {
        Ok(_count) => Ok(false),
        Err(refused) => Ok(is_told(&refused, row.why, row.places)),
    }
}

#[test]
fn refused_documents(rt: HostRuntime) -> Result<(), Fail> {
    for row in &REFUSED {
        assert!(rt; is_refused(rt.alloc(), row)?, "{}", row.why);
    }
    Ok(())
}
