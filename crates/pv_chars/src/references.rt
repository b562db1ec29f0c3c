//! References at the front of some bytes.

ghost use Rattle.std.specs.Prelude.{◌≡◌, ◌≤◌, MatchOption};
ghost use Rattle.pv_chars.specs.Fronts.{Begins, BeginsNone};
ghost use Rattle.pv_chars.specs.References.{IsCharRefIn, IsCharRef, IsEntityRef};
ghost use Rattle.pv_chars.specs.References.{BeginsNoEntityRef, TakesDigits};

use crate::characters::is_char;
use crate::names::name_at;
use crate::scan::after_bytes;

/// More than the code point of any character.
const PAST_CHARS: u32 = 0x110000;

/// The number that the digits at the front write, or more than any code point where it is more,
/// and what stands after them.
///
/// ```rust
/// assert!(rt; digits_at(16, b"1F;") == (31, b";".as_slice()));
/// ```
pub fn digits_at(base: u32, bytes: &[u8]) -> (u32, &[u8])
    requires some { 2 ≤ base }
    requires known { base ≤ 36 }
    ensures { TakesDigits base bytes.now result.1.now result.0 }
{
    let mut value = 0;
    let mut rest = bytes;
    'digits: while let [b, more @ ..] = rest {
        let Some(digit) = char::from(*b).to_digit(base) else {
            return (value, rest);
        };
        value = (value * base + digit).min(PAST_CHARS);
        rest = more;
    }
    (value, rest)
}

fn after_ref_in<'a>(base: u32, front: &[u8], bytes: &'a [u8]) -> Option<&'a [u8]>
    requires some { 2 ≤ base }
    requires known { base ≤ 36 }
    ensures { MatchOption result (BeginsNone (IsCharRefIn base front.now) bytes.now)
        (λ r. Begins (IsCharRefIn base front.now) bytes.now r.now) }
{
    let start = after_bytes(front, bytes)?;
    let (value, end) = digits_at(base, start);
    if end.len() == start.len() {
        return None;
    }
    if !is_char(value) {
        return None;
    }
    after_bytes(b";", end)
}

/// What stands after the character reference at the front (XML 1.0, section 4.1, CharRef), which
/// may have any number of leading zeros.
///
/// ```rust
/// assert!(rt; after_char_ref(b"&#00065;c") == Some(b"c".as_slice())); // test_layers: fronts
/// assert!(rt; after_char_ref(b"&#0;").is_none());
/// ```
pub fn after_char_ref(bytes: &[u8]) -> Option<&[u8]>
    ensures { MatchOption result (BeginsNone IsCharRef bytes.now)
        (λ r. Begins IsCharRef bytes.now r.now) }
{
    match after_ref_in(16, b"&#x", bytes) {
        Some(rest) => Some(rest),
        None => after_ref_in(10, b"&#", bytes),
    }
}

/// The name in the entity reference at the front (XML 1.0, section 4.1, EntityRef), and what
/// stands after it.
///
/// ```rust
/// // test_layers: fronts_with_parts
/// assert!(rt; entity_ref_at(b"&lt;c") == Some((b"lt".as_slice(), b"c".as_slice())));
/// ```
pub fn entity_ref_at(bytes: &[u8]) -> Option<(&[u8], &[u8])>
    ensures { MatchOption result (BeginsNoEntityRef bytes.now)
        (λ r. Begins (IsEntityRef r.0.now) bytes.now r.1.now) }
{
    let start = after_bytes(b"&", bytes)?;
    let (name, end) = name_at(start)?;
    let rest = after_bytes(b";", end)?;
    Some((name, rest))
}
