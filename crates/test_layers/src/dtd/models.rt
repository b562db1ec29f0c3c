//! Content models, and the words that they allow.

use crate::dtd::expectations::expect;
use crate::tokens::push_tokens;
use pv_dtd::{Dtd, read_dtd};
use pv_model::{NameId, Names, NoMemory, Token, matches};
use std::alloc::Global;
use std::process::Abort;
use std::test::Fail;

/// The number of the name whose model is tried.
const M: NameId = NameId(0);

/// Whether the model of `m` allows the word, or doesn't, both as it is laid out and by itself.
fn agrees(alloc: Global, dtd: &Dtd, word: &[Token], allowed: bool) -> Result<bool, NoMemory> {
    if dtd.names() == 0 {
        return Ok(false);
    }
    match dtd.laid_model_of(M) {
        Some(laid) => {
            let alone = matches(alloc, laid.model(), dtd.count(), word)?;
            Ok(alone == allowed && laid.allows(alloc, dtd.count(), word)? == allowed)
        }
        None => Ok(false),
    }
}

/// The word that a text is. Of the names `a`, `b` and `c` are declared, and `d` isn't.
fn tokens(alloc: Global, text: &str) -> Result<Vec<Token>, Fail> {
    let mut word = Vec::new(alloc);
    push_tokens(&mut word, text)?;
    Ok(word)
}

/// Models, each with words that it allows and words that it refuses.
static WORDS: [(&str, &[&str], &[&str]); 12] = [
    ("EMPTY", &[""], &["a", "#", "?"]),
    ("ANY", &["", "a", "#", "c#a"], &["d", "?", "a#d", "a?"]),
    (
        "(#PCDATA | a | c)*",
        &["", "#", "a", "c", "##ca#"],
        &["b", "?", "#b", "a?"],
    ),
    ("(a)", &["a"], &["", "b", "aa", "#", "?", "a#"]),
    (
        "(a, b, c)",
        &["abc"],
        &["", "ab", "bc", "acb", "abcc", "a#bc"],
    ),
    ("(a | b | c)", &["a", "b", "c"], &["", "ab", "d"]),
    ("(a)?", &["", "a"], &["b", "aa"]),
    ("(a)*", &["", "a", "aaa"], &["b", "aab", "aba"]),
    ("(a)+", &["a", "aaa"], &["", "b", "aab", "ba"]),
    // not deterministic
    ("((a, b) | (a, c))", &["ab", "ac"], &["", "a", "abc", "aac"]),
    (
        "((a*)*, b?, (a | b)+)",
        &["a", "b", "bb", "aaba", "abab"],
        &["", "c", "abc"],
    ),
    // a walk by trial takes a step for each subset of the thirty names
    (
        "(a?,a?,a?,a?,a?,a?,a?,a?,a?,a?,a?,a?,a?,a?,a?,\
         a?,a?,a?,a?,a?,a?,a?,a?,a?,a?,a?,a?,a?,a?,a?)",
        &["", "a", "aaaaaaaaaaaaaaaaaaaaaaaaaaaaaa"],
        &["b", "aaaaaaaaaaaaaaaaaaaaaaaaaaaaaaa"],
    ),
];

fn check_words(
    rt: &impl Abort,
    alloc: Global,
    dtd: &Dtd,
    words: &[&'static str],
    allowed: bool,
) -> Result<(), Fail> {
    for text in words {
        let word = tokens(alloc, *text)?;
        let agrees = agrees(alloc, dtd, &word, allowed)?;
        expect(rt, agrees, text);
    }
    Ok(())
}

// The DTD in which `m` has the model, and `a`, `b` and `c` are declared.
fn with_model(alloc: Global, model: &str) -> Result<Box<Dtd>, Fail> {
    let text = format!(in alloc;
        "<!ELEMENT m {model}><!ELEMENT a ANY><!ELEMENT b ANY><!ELEMENT c ANY>"
    )?;
    Ok(Box::new(alloc, read_dtd(alloc, text.as_bytes())?)?)
}

#[test]
fn words(rt: HostRuntime) -> Result<(), Fail> {
    for (model, allowed, refused) in &WORDS {
        let dtd = with_model(rt.alloc(), *model)?;
        check_words(&rt, rt.alloc(), &dtd, *allowed, true)?;
        check_words(&rt, rt.alloc(), &dtd, *refused, false)?;
    }
    Ok(())
}

/// So many more of a token, and whether the word is allowed with them.
type Step = (Token, usize, bool);

const N0: Token = Token::Name(NameId(1));

const N1: Token = Token::Name(NameId(2));

const N300: Token = Token::Name(NameId(301));

fn check_steps(
    rt: &impl Abort,
    alloc: Global,
    dtd: &Dtd,
    word: &mut Vec<Token>,
    steps: &[Step],
) -> Result<(), NoMemory> {
    for (token, count, allowed) in steps {
        word.resize(word.len().saturating_add(*count), *token)?;
        let agrees = agrees(alloc, dtd, word, *allowed)?;
        expect(rt, agrees, token);
    }
    Ok(())
}

/// A word of a million names.
static LONG: [Step; 2] = [(N0, 1_000_000, true), (N1, 1, false)];

#[test]
fn long_word(rt: HostRuntime) -> Result<(), Fail> {
    let dtd = with_model(rt.alloc(), "(((a*)*)*)")?;
    let mut word = Vec::new(rt.alloc());
    Ok(check_steps(&rt, rt.alloc(), &dtd, &mut word, &LONG)?)
}

/// Words of a model of 300 times `a?`, of which each name may be at many places.
static OPTIONAL: [Step; 4] = [
    (N0, 1, true),
    (N0, 99, true),
    (N0, 200, true),
    (N0, 1, false),
];

#[test]
fn optional_names(rt: HostRuntime) -> Result<(), Fail> {
    let mut model = format!(in rt.alloc(); "(a?")?;
    for _ in 1..300 {
        model.push_str(",a?")?;
    }
    model.push_str(")")?;
    let dtd = with_model(rt.alloc(), model.as_str())?;
    let mut word = Vec::new(rt.alloc());
    Ok(check_steps(&rt, rt.alloc(), &dtd, &mut word, &OPTIONAL)?)
}

/// Models of n0, n1, .., n299: what stands before the first number, between two, and after the
/// last, and what becomes of the word n0, n2, .., n298.
static LARGE: [(&str, &str, &str, &[Step]); 3] = [
    ("(n", "?, n", "?)", &[(N0, 0, true), (N0, 1, false)]),
    (
        "(n",
        " | n",
        ")+",
        &[(N0, 0, true), (N0, 1, true), (Token::Text, 1, false)],
    ),
    (
        "(#PCDATA | n",
        " | n",
        ")*",
        &[
            (N0, 0, true),
            (N0, 1, true),
            (Token::Text, 1001, true),
            (N300, 1, false),
        ],
    ),
];

fn large(alloc: Global, before: &str, between: &str, behind: &str) -> Result<String, Fail> {
    let mut text = format!(in alloc; "<!ELEMENT m {before}0")?;
    for n in 1..300 {
        let more = format!(in alloc; "{between}{n}")?;
        text.push_str(more.as_str())?;
    }
    text.push_str(behind)?;
    text.push_str(">")?;
    Ok(text)
}

// The names n0, n2, .., n298.
fn even_names(alloc: Global) -> Result<Vec<Token>, NoMemory> {
    let mut word = Vec::new(alloc);
    for n in 0..150 {
        word.push(Token::Name(NameId(2 * n + 1)))?;
    }
    Ok(word)
}

fn check_large(rt: &impl Abort, alloc: Global, text: &str, steps: &[Step]) -> Result<(), Fail> {
    let dtd = read_dtd(alloc, text.as_bytes())?;
    let mut word = even_names(alloc)?;
    Ok(check_steps(rt, alloc, &dtd, &mut word, steps)?)
}

/// Words for which a large model is laid out.
#[test]
fn large_models(rt: HostRuntime) -> Result<(), Fail> {
    for (before, between, behind, steps) in &LARGE {
        let text = large(rt.alloc(), *before, *between, *behind)?;
        check_large(&rt, rt.alloc(), text.as_str(), *steps)?;
    }
    Ok(())
}

#[test]
fn listed_names(rt: HostRuntime) -> Result<(), Fail> {
    let names = Names::of([NameId(97), NameId(99)].to_vec(rt.alloc())?);
    assert!(rt; names.as_slice() == [NameId(97), NameId(99)].as_slice());
    Ok(())
}
