//! Names at the front of some bytes (XML 1.0, section 2.3).

ghost use Rattle.std.specs.Prelude.{◌≡◌, ◌<◌, ◌≤◌, ◌↔◌, length, IfSome, IsTrue, MatchOption};
ghost use Rattle.pv_chars.specs.Characters.{is_name_char, TakesChars};
ghost use Rattle.pv_chars.specs.Names.{IsName, TakesName, BeginsNoName, is_name};

use crate::characters::{is_name_char, is_name_start};
use crate::utf8::char_at;

/// What stands after the NameChars at the front.
fn after_name_chars(bytes: &[u8]) -> &[u8]
    ensures taken { TakesChars is_name_char bytes.now result.now }
    ensures within { length result.now ≤ length bytes.now }
{
    let mut rest = bytes;
    'chars: while let Some((c, more)) = char_at(rest) {
        if !is_name_char(c) {
            return rest;
        }
        rest = more;
    }
    rest
}

/// The longest Name at the front (XML 1.0, section 2.3), and what stands after it.
///
/// ```rust
/// assert!(rt; name_at(b"a:b c") == Some((b"a:b".as_slice(), b" c".as_slice())));
/// assert!(rt; name_at(b"1a").is_none());
/// ```
pub fn name_at(bytes: &[u8]) -> Option<(&[u8], &[u8])>
    ensures found { MatchOption result (BeginsNoName bytes.now)
        (λ r. TakesName bytes.now r.0.now r.1.now) }
    ensures shorter { IfSome result (λ r. length r.1.now < length bytes.now) }
{
    let (c, others) = char_at(bytes)?;
    if !is_name_start(c) {
        return None;
    }
    let rest = after_name_chars(others);
    Some(bytes.split_at(bytes.len() - rest.len()))
}

/// Whether the bytes are a Name (XML 1.0, section 2.3).
///
/// ```rust
/// assert!(rt; is_name(b"_a.1-B") && !is_name(b"1a")); // test_layers: names
/// ```
pub fn is_name(bytes: &[u8]) -> bool
    ensures exact { IsTrue result ↔ IsName bytes.now }
    ensures value { result ≡ is_name bytes.now }
{
    match name_at(bytes) {
        Some((_, rest)) => rest.is_empty(),
        None => false,
    }
}
