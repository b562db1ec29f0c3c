//! Characters by their code points.

ghost use Rattle.std.specs.Prelude.{◌≡◌, ◌↔◌, IsTrue};
ghost use Rattle.std.specs.List.{list_all};
ghost use Rattle.pv_chars.specs.Characters.{is_char, is_ascii_char, is_name_start, is_name_char};
ghost use Rattle.pv_chars.specs.Characters.{IsChars, TakesChars};

use crate::utf8::char_at;

/// Whether the code point is a Char (XML 1.0, section 2.2).
///
/// ```rust
/// assert!(rt; is_char(0x41) && !is_char(0xFFFE)); // test_layers: sets
/// ```
pub fn is_char(c: u32) -> bool
    ensures { result ≡ is_char c }
{
    matches!(c, 0x9 | 0xA | 0xD | 0x20..=0xD7FF | 0xE000..=0xFFFD | 0x10000..=0x10FFFF)
}

/// Whether a Name may begin with the code point (XML 1.0, section 2.3, NameStartChar).
///
/// ```rust
/// assert!(rt; is_name_start(0x5F) && !is_name_start(0x2D)); // test_layers: sets
/// ```
pub fn is_name_start(c: u32) -> bool
    ensures { result ≡ is_name_start c }
{
    match c {
        0x3A | 0x41..=0x5A | 0x5F | 0x61..=0x7A => true,
        0xC0..=0xD6 | 0xD8..=0xF6 | 0xF8..=0x2FF | 0x370..=0x37D => true,
        0x37F..=0x1FFF | 0x200C..=0x200D | 0x2070..=0x218F | 0x2C00..=0x2FEF => true,
        0x3001..=0xD7FF | 0xF900..=0xFDCF | 0xFDF0..=0xFFFD | 0x10000..=0xEFFFF => true,
        _ => false,
    }
}

/// Whether the code point may stand in a Name (XML 1.0, section 2.3, NameChar).
///
/// ```rust
/// assert!(rt; is_name_char(0x2D) && !is_name_char(0x20)); // test_layers: sets
/// ```
pub fn is_name_char(c: u32) -> bool
    ensures { result ≡ is_name_char c }
{
    is_name_start(c)
        || matches!(c, 0x2D | 0x2E | 0x30..=0x39 | 0xB7 | 0x300..=0x36F | 0x203F..=0x2040)
}

/// What stands after the Chars at the front.
fn after_chars(bytes: &[u8]) -> &[u8]
    ensures { TakesChars is_char bytes.now result.now }
{
    let mut rest = bytes;
    'chars: while let Some((c, more)) = char_at(rest) {
        if !is_char(c) {
            return rest;
        }
        rest = more;
    }
    rest
}

// A byte that is a Char.
fn is_ascii_char(b: u8) -> bool
    ensures { result ≡ is_ascii_char b }
{
    (b == b'\t' || b == b'\n' || b == b'\r' || b >= b' ') && b < 128
}

// Whether each byte is a Char. All are looked at, so that many can be at a time.
fn are_ascii_chars(bytes: &[u8]) -> bool
    ensures { result ≡ list_all is_ascii_char bytes.now }
{
    let mut all = true;
    for b in bytes {
        all &= is_ascii_char(*b);
    }
    all
}

/// Whether the bytes are Chars, one after the other, in UTF-8 (XML 1.0, section 2.2).
///
/// ```rust
/// assert!(rt; are_chars("текст €\t".as_bytes()) && !are_chars(b"a\x00")); // test_layers: scans
/// ```
pub fn are_chars(bytes: &[u8]) -> bool
    ensures { IsTrue result ↔ IsChars bytes.now }
{
    are_ascii_chars(bytes) || after_chars(bytes).is_empty()
}
