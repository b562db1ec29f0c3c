//! Comments, processing instructions and CDATA sections at the front of some bytes.

ghost use Rattle.std.specs.Prelude.{◌↔◌, IsTrue, MatchOption};
ghost use Rattle.pv_chars.specs.Fronts.{Begins, BeginsNone};
ghost use Rattle.pv_chars.specs.Markup.{IsComment, IsInstruction, IsBehindTarget, IsCdata};

use crate::characters::are_chars;
use crate::delimiters::up_to;
use crate::names::name_at;
use crate::scan::{after_bytes, is_space};

/// What stands after the comment at the front (XML 1.0, section 2.5).
///
/// ```rust
/// assert!(rt; after_comment(b"<!--a-b-->c") == Some(b"c".as_slice())); // test_layers: fronts
/// assert!(rt; after_comment(b"<!--a--b-->").is_none());
/// ```
pub fn after_comment(bytes: &[u8]) -> Option<&[u8]>
    ensures { MatchOption result (BeginsNone IsComment bytes.now)
        (λ r. Begins IsComment bytes.now r.now) }
{
    let inside = after_bytes(b"<!--", bytes)?;
    let (text, end) = up_to(b"--", inside)?;
    if !are_chars(text) {
        return None;
    }
    after_bytes(b">", end)
}

// Whether nothing may stand between a target and `?>` but this.
fn is_behind_target(bytes: &[u8]) -> bool
    ensures { IsTrue result ↔ IsBehindTarget bytes.now }
{
    match bytes {
        [] => true,
        [b, text @ ..] => is_space(*b) && are_chars(text),
    }
}

/// What stands after the processing instruction at the front (XML 1.0, section 2.6).
///
/// ```rust
/// assert!(rt; after_instruction(b"<?a?>c") == Some(b"c".as_slice())); // test_layers: fronts
/// assert!(rt; after_instruction(b"<?XmL?>").is_none());
/// ```
pub fn after_instruction(bytes: &[u8]) -> Option<&[u8]>
    ensures { MatchOption result (BeginsNone IsInstruction bytes.now)
        (λ r. Begins IsInstruction bytes.now r.now) }
{
    let start = after_bytes(b"<?", bytes)?;
    let (target, after) = name_at(start)?;
    if target.eq_ignore_ascii_case(b"xml") {
        return None;
    }
    let (text, rest) = up_to(b"?>", after)?;
    if !is_behind_target(text) {
        return None;
    }
    Some(rest)
}

/// What stands after the CDATA section at the front (XML 1.0, section 2.7).
///
/// ```rust
/// // test_layers: fronts
/// assert!(rt; after_cdata(b"<![CDATA[a]]]>c") == Some(b"c".as_slice()));
/// ```
pub fn after_cdata(bytes: &[u8]) -> Option<&[u8]>
    ensures { MatchOption result (BeginsNone IsCdata bytes.now)
        (λ r. Begins IsCdata bytes.now r.now) }
{
    let inside = after_bytes(b"<![CDATA[", bytes)?;
    let (text, rest) = up_to(b"]]>", inside)?;
    if !are_chars(text) {
        return None;
    }
    Some(rest)
}
