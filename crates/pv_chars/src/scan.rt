//! Parts of a text, read from the left: white space, fixed bytes and the byte order mark.

ghost use Rattle.std.specs.Prelude.{◌≡◌, ◌≢◌, ◌≤◌, ◌<◌, ◌+◌, ℕ, false, List, ◌++◌, length, take};
ghost use Rattle.std.specs.Prelude.{drop, IfSome, MatchOption};
ghost use Rattle.std.specs.Option.{option_map};
ghost use Rattle.pv_chars.specs.ByteOrderMark.{IsBehindByteOrderMark};
ghost use Rattle.pv_chars.specs.Spaces.{is_space, begins, IsOptionalSpace, TakesSpace, TakesBlank};
ghost use Rattle.pv_chars.specs.Scan.{space_length, after_space, after_blank, after_bytes};

/// Whether the byte is white space: a space, a tab, a CR or an LF (XML 1.0, section 2.3, S).
///
/// ```rust
/// assert!(rt; is_space(b'\t') && !is_space(b'x'));
/// ```
pub fn is_space(b: u8) -> bool
    ensures { result ≡ is_space b }
{
    b == b' ' || b == b'\t' || b == b'\r' || b == b'\n'
}

/// How many bytes at the front are white space.
///
/// ```rust
/// assert!(rt; space_length(b" \t\r\nx ") == 4); // test_layers: scans
/// ```
#[tactic(auto, using(crate::proofs::TextScans::space_ends))]
pub fn space_length(bytes: &[u8]) -> usize
    ensures front { IsOptionalSpace (take result bytes.now) }
    ensures ends { begins is_space (drop result bytes.now) ≡ false }
    ensures value { result ≡ space_length bytes.now }
    ensures within { result ≤ length bytes.now }
{
    let mut count = 0;
    for b in bytes {
        if !is_space(*b) {
            return count;
        }
        count += 1;
    }
    count
}

/// What stands after the white space at the front.
///
/// ```rust
/// assert!(rt; after_space(b" \tx ") == b"x ".as_slice());
/// ```
#[tactic(auto, using(crate::proofs::TextScans::drop_space))]
pub fn after_space(bytes: &[u8]) -> &[u8]
    ensures taken { TakesSpace bytes.now result.now }
    ensures after { result.now ≡ after_space bytes.now }
    ensures within { length result.now ≤ length bytes.now }
{
    bytes.split_at(space_length(bytes)).1
}

/// What stands after the white space at the front, where there is some.
///
/// ```rust
/// assert!(rt; after_blank(b" x") == Some(b"x".as_slice())); // test_layers: fronts
/// assert!(rt; after_blank(b"x").is_none());
/// ```
#[tactic(auto, unfolding(crate::specs::Scan::after_blank))]
pub fn after_blank(bytes: &[u8]) -> Option<&[u8]>
    ensures found { MatchOption result (begins is_space bytes.now ≡ false)
        (λ r. TakesBlank bytes.now r.now) }
    ensures after { option_map (λ r. r.now) result ≡ after_blank bytes.now }
    ensures within { IfSome result (λ r. length r.now < length bytes.now) }
{
    match bytes {
        [b, rest @ ..] if is_space(*b) => Some(after_space(rest)),
        _ => None,
    }
}

/// What stands after these bytes, where they stand at the front.
///
/// ```rust
/// assert!(rt; after_bytes(b"<?", b"<?a?>") == Some(b"a?>".as_slice()));
/// ```
pub fn after_bytes<'a>(front: &[u8], bytes: &'a [u8]) -> Option<&'a [u8]>
    ensures found { MatchOption result ((rest : List ℕ) → bytes.now ≢ front.now ++ rest)
        (λ r. bytes.now ≡ front.now ++ r.now) }
    ensures after { option_map (λ r. r.now) result ≡ after_bytes front.now bytes.now }
    ensures within { IfSome result (λ r. length front.now + length r.now ≡ length bytes.now) }
{
    bytes.strip_prefix(front)
}

/// What stands after the byte order mark (XML 1.0, section 4.3.3), or all of the bytes where there
/// is none.
///
/// ```rust
/// assert!(rt; after_byte_order_mark(b"\xEF\xBB\xBF<a/>") == b"<a/>".as_slice());
/// assert!(rt; after_byte_order_mark(b"<a/>") == b"<a/>".as_slice());
/// ```
pub fn after_byte_order_mark(bytes: &[u8]) -> &[u8]
    ensures behind { IsBehindByteOrderMark bytes.now result.now }
    ensures within { length result.now ≤ length bytes.now }
{
    match after_bytes(b"\xEF\xBB\xBF", bytes) {
        Some(rest) => rest,
        None => bytes,
    }
}
