//! External identifiers (XML 1.0, section 4.2.2).

ghost use Rattle.std.specs.Prelude.{◌≡◌, ◌≢◌, ◌==◌, false, [], List, ℕ, codes, MatchOption};
ghost use Rattle.std.specs.List.{list_all, list_any};
ghost use Rattle.pv_chars.specs.Spaces.{is_space, begins};
ghost use Rattle.pv_chars.specs.Fronts.{Begins, BeginsNone};
ghost use Rattle.pv_tree.specs.Prolog.{is_pubid_char, IsSystemLiteral, IsPubidLiteral, IsSystemId};
ghost use Rattle.pv_tree.specs.Prolog.{IsPublicId, IsExternalId};
ghost use Rattle.pv_read.specs.Takes.{TakesWord};

use pv_chars::are_chars;
use pv_chars::declarations::quoted_at;
use pv_chars::scan::{after_blank, after_bytes};

// One of the marks that may stand in a public identifier.
fn is_pubid_mark(b: u8) -> bool
    ensures { result ≡ list_any (λ c. b == c) (codes "-'()+,./:=?;!*#@$_%") }
{
    b"-'()+,./:=?;!*#@$_%".iter().any(|c| b == *c)
}

fn is_pubid_char(b: u8) -> bool
    ensures { result ≡ is_pubid_char b }
{
    b == b' ' || b == b'\r' || b == b'\n' || b.is_ascii_alphanumeric() || is_pubid_mark(b)
}

fn are_pubid_chars(bytes: &[u8]) -> bool
    ensures { result ≡ list_all is_pubid_char bytes.now }
{
    bytes.iter().all(|b| is_pubid_char(*b))
}

// What stands after the system literal at the front.
fn after_system_literal(bytes: &[u8]) -> Option<&[u8]>
    ensures { MatchOption result (BeginsNone IsSystemLiteral bytes.now)
        (λ r. Begins IsSystemLiteral bytes.now r.now) }
{
    let (value, rest) = quoted_at(bytes)?;
    if !are_chars(value) {
        return None;
    }
    Some(rest)
}

// What stands after the public identifier's literal at the front.
fn after_pubid_literal(bytes: &[u8]) -> Option<&[u8]>
    ensures { MatchOption result (BeginsNone IsPubidLiteral bytes.now)
        (λ r. Begins IsPubidLiteral bytes.now r.now) }
{
    let (value, rest) = quoted_at(bytes)?;
    if !are_pubid_chars(value) {
        return None;
    }
    Some(rest)
}

// What stands after this word at the front, with white space before and after it.
fn after_word<'a>(word: &[u8], bytes: &'a [u8]) -> Option<&'a [u8]>
    requires some { word.now ≢ [] }
    requires black { begins is_space word.now ≡ false }
    ensures { MatchOption result ((rest : List ℕ) → TakesWord word.now bytes.now rest → ⊥)
        (λ r. TakesWord word.now bytes.now r.now) }
{
    let start = after_blank(bytes)?;
    let named = after_bytes(word, start)?;
    after_blank(named)
}

// What stands after the external identifier of the kind SYSTEM at the front, which white space
// begins.
fn after_system_id(bytes: &[u8]) -> Option<&[u8]>
    ensures { MatchOption result (BeginsNone IsSystemId bytes.now)
        (λ r. Begins IsSystemId bytes.now r.now) }
{
    let literal = after_word(b"SYSTEM", bytes)?;
    after_system_literal(literal)
}

// What stands after the external identifier of the kind PUBLIC at the front, which white space
// begins.
fn after_public_id(bytes: &[u8]) -> Option<&[u8]>
    ensures { MatchOption result (BeginsNone IsPublicId bytes.now)
        (λ r. Begins IsPublicId bytes.now r.now) }
{
    let public = after_word(b"PUBLIC", bytes)?;
    let between = after_pubid_literal(public)?;
    let system = after_blank(between)?;
    after_system_literal(system)
}

/// What stands after the external identifier at the front, which white space begins.
pub fn after_external_id(bytes: &[u8]) -> Option<&[u8]>
    ensures { MatchOption result (BeginsNone IsExternalId bytes.now)
        (λ r. Begins IsExternalId bytes.now r.now) }
{
    match after_system_id(bytes) {
        Some(rest) => Some(rest),
        None => after_public_id(bytes),
    }
}
