//! What stands before a delimiter.

ghost use Rattle.std.specs.Prelude.{[], ◌∷◌, MatchOption};
ghost use Rattle.pv_chars.specs.Fronts.{ContainsBytes, EndsAt};

use memchr::{memchr, memmem};

/// What stands before the first place of the delimiter, and what stands after it.
///
/// ```rust
/// assert!(rt; up_to(b"--", b"a-b--c") == Some((b"a-b".as_slice(), b"c".as_slice())));
/// ```
pub fn up_to<'a>(delimiter: &[u8], bytes: &'a [u8]) -> Option<(&'a [u8], &'a [u8])>
    ensures { MatchOption result (ContainsBytes bytes.now delimiter.now → ⊥)
        (λ r. EndsAt delimiter.now bytes.now r.0.now r.1.now) }
{
    let at = memmem::find(bytes, delimiter)?;
    let (before, found) = bytes.split_at(at);
    Some((before, found.split_at(delimiter.len()).1))
}

/// What stands before the first place of the byte, and what stands after it.
///
/// ```rust
/// assert!(rt; up_to_byte(b';', b"lt;c") == Some((b"lt".as_slice(), b"c".as_slice())));
/// ```
pub fn up_to_byte(byte: u8, bytes: &[u8]) -> Option<(&[u8], &[u8])>
    ensures { MatchOption result (ContainsBytes bytes.now (byte ∷ []) → ⊥)
        (λ r. EndsAt (byte ∷ []) bytes.now r.0.now r.1.now) }
{
    let at = memchr(byte, bytes)?;
    let (before, found) = bytes.split_at(at);
    Some((before, found.split_at(1).1))
}
