//! Content models, with words that they go on with.

use pv_dtd::{Dtd, read_dtd};
use pv_model::{LaidModel, NameId};
use std::alloc::Global;
use std::test::Fail;

/// A model, words that it may go on with, and others.
pub struct Board {
    pub model: &'static str,
    pub pieces: &'static [&'static str],
    pub others: &'static [&'static str],
}

/// Models of each kind, deterministic or not.
pub static BOARDS: [Board; 10] = [
    Board {
        model: "EMPTY",
        pieces: &["", ""],
        others: &["a", "#", "?"],
    },
    Board {
        model: "ANY",
        pieces: &["a", "c#", "b"],
        others: &["d", "?"],
    },
    Board {
        model: "(#PCDATA | a | c)*",
        pieces: &["a", "#", "c#"],
        others: &["b", "?"],
    },
    Board {
        model: "(a | b)*",
        pieces: &["a", "b", "ab"],
        others: &["c", "#"],
    },
    Board {
        model: "(c?, a*)",
        pieces: &["a", "aa"],
        others: &["c", "?"],
    },
    Board {
        model: "(a, b+)+",
        pieces: &["ab", "abb"],
        others: &["a", "b"],
    },
    // not deterministic
    Board {
        model: "((a, b) | (a, c))*",
        pieces: &["ab", "ac"],
        others: &["a", "bc"],
    },
    // one token more or less changes all that is after it
    Board {
        model: "((a, a) | (b, b, b))*",
        pieces: &["aa", "bbb"],
        others: &["a", "b"],
    },
    Board {
        model: "((a*)*, b?, (a | b)+)",
        pieces: &["a", "b", "aa"],
        others: &["c", "#"],
    },
    // a large one
    Board {
        model: "((a | b)+, (c?, a*, b?, (a, c)*, (a | (b, c))?)+, \
            (c?, a*, b?, (a, c)*, (a | (b, c))?)+, (c?, a*, b?, (a, c)*, (a | (b, c))?)+, \
            (c?, a*, b?, (a, c)*, (a | (b, c))?)+, (c?, a*, b?, (a, c)*, (a | (b, c))?)+, \
            (c?, a*, b?, (a, c)*, (a | (b, c))?)+)",
        pieces: &["a", "b", "bc", "ac"],
        others: &["#", "?"],
    },
];

/// The DTD in which `m`, its first name, has the model, and `a`, `b` and `c` are declared. It is in
/// a box, so that each caller drops it by one call.
pub fn with_model(alloc: Global, model: &str) -> Result<Box<Dtd>, Fail> {
    let text = format!(in alloc;
        "<!ELEMENT m {model}><!ELEMENT a ANY><!ELEMENT b ANY><!ELEMENT c ANY>"
    )?;
    Ok(Box::new(alloc, read_dtd(alloc, text.as_bytes())?)?)
}

/// The model of `m`.
pub fn model_of(dtd: &Dtd) -> Result<&LaidModel, Fail> {
    if dtd.names() == 0 {
        return Err(Fail::new("a DTD without names"));
    }
    Ok(
        dtd.laid_model_of(NameId(0))
            .ok_or("a name without a model")?,
    )
}
