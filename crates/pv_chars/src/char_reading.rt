//! What stands at the front of some bytes, as the functions of `specs/CharReading.antt` read it:
//! for readers that are proved by reading functions of their own.

ghost use Rattle.std.specs.Prelude.{◌≡◌, ◌<◌, length, IfSome};
ghost use Rattle.std.specs.Option.{option_map};
ghost use Rattle.pv_chars.specs.Declarations.{is_one_of};
ghost use Rattle.pv_chars.specs.CharReading.{name_at, comment_at, instruction_at, quoted_at};
ghost use Rattle.pv_chars.specs.CharReading.{text_declaration_at, is_chars};

use crate::characters::are_chars;
use crate::declarations::after_text_decl;
use crate::markup::{after_comment, after_instruction};

/// Whether the byte is one of these bytes.
///
/// ```rust
/// assert!(rt; is_one_of(b"ab", b'b') && !is_one_of(b"ab", b'c'));
/// ```
pub fn is_one_of(bytes: &[u8], b: u8) -> bool
    ensures { result ≡ is_one_of bytes.now b }
{
    for other in bytes {
        if b == *other {
            return true;
        }
    }
    false
}

/// Whether all of it is Chars (XML 1.0, section 2.2).
///
/// ```rust
/// assert!(rt; is_chars("текст €\t".as_bytes()) && !is_chars(b"a\x00"));
/// ```
pub fn is_chars(bytes: &[u8]) -> bool
    ensures { result ≡ is_chars bytes.now }
{
    are_chars(bytes)
}

/// The longest name at the front (XML 1.0, section 2.3), and what stands after it.
///
/// ```rust
/// assert!(rt; name_at(b"a:b c") == Some((b"a:b".as_slice(), b" c".as_slice())));
/// ```
pub fn name_at(bytes: &[u8]) -> Option<(&[u8], &[u8])>
    ensures name { option_map (λ r. (r.0.now, r.1.now)) result ≡ name_at bytes.now }
    ensures within { IfSome result (λ r. length r.1.now < length bytes.now) }
{
    crate::names::name_at(bytes)
}

/// The value in quotes at the front, without its quotes, and what stands after it.
///
/// ```rust
/// assert!(rt; quoted_at(b"'a\"b'c") == Some((b"a\"b".as_slice(), b"c".as_slice())));
/// ```
pub fn quoted_at(bytes: &[u8]) -> Option<(&[u8], &[u8])>
    ensures { option_map (λ r. (r.0.now, r.1.now)) result ≡ quoted_at bytes.now }
{
    crate::declarations::quoted_at(bytes)
}

/// What stands after the comment at the front (XML 1.0, section 2.5).
///
/// ```rust
/// assert!(rt; comment_at(b"<!--a-b-->c") == Some(b"c".as_slice()));
/// ```
pub fn comment_at(bytes: &[u8]) -> Option<&[u8]>
    ensures read { option_map (λ r. r.now) result ≡ comment_at bytes.now }
    ensures within { IfSome result (λ r. length r.now < length bytes.now) }
{
    after_comment(bytes)
}

/// What stands after the processing instruction at the front (XML 1.0, section 2.6).
///
/// ```rust
/// assert!(rt; instruction_at(b"<?a?>c") == Some(b"c".as_slice()));
/// ```
pub fn instruction_at(bytes: &[u8]) -> Option<&[u8]>
    ensures read { option_map (λ r. r.now) result ≡ instruction_at bytes.now }
    ensures within { IfSome result (λ r. length r.now < length bytes.now) }
{
    after_instruction(bytes)
}

/// What stands after the text declaration at the front (XML 1.0, section 4.3.1, in this project's
/// profile).
///
/// ```rust
/// let text = b"<?xml encoding = 'us-ASCII'?>c";
/// assert!(rt; text_declaration_at(text) == Some(b"c".as_slice()));
/// ```
pub fn text_declaration_at(bytes: &[u8]) -> Option<&[u8]>
    ensures read { option_map (λ r. r.now) result ≡ text_declaration_at bytes.now }
    ensures within { IfSome result (λ r. length r.now < length bytes.now) }
{
    after_text_decl(bytes)
}
