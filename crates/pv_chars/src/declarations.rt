//! Values in quotes, the parts of an XML declaration, and text declarations.

ghost use Rattle.std.specs.Prelude.{◌≡◌, ◌≢◌, ◌↔◌, false, [], IsTrue, MatchOption};
ghost use Rattle.pv_chars.specs.Fronts.{Begins, BeginsNone};
ghost use Rattle.pv_chars.specs.Declarations.{is_quote, IsQuoted, BeginsNoQuoted, IsPart};
ghost use Rattle.pv_chars.specs.Declarations.{BeginsNoPart, IsVersionNum, IsEncName, IsYesOrNo};
ghost use Rattle.pv_chars.specs.Declarations.{IsVersionInfo, IsEncodingDecl, IsStandaloneDecl};
ghost use Rattle.pv_chars.specs.Declarations.{IsTextDecl, IsXmlDecl};
ghost use Rattle.std.specs.List.{list_all};
ghost use Rattle.std.specs.Char.{is_ascii_digit};
ghost use Rattle.pv_chars.specs.Spaces.{is_space, begins};

use crate::delimiters::up_to_byte;
use crate::scan::{after_blank, after_bytes, after_space};

fn is_quote(b: u8) -> bool
    ensures { result ≡ is_quote b }
{
    b == b'"' || b == b'\''
}

/// The value in quotes at the front, without its quotes, and what stands after it.
///
/// ```rust
/// // test_layers: fronts_with_parts
/// assert!(rt; quoted_at(b"'a\"b'c") == Some((b"a\"b".as_slice(), b"c".as_slice())));
/// ```
pub fn quoted_at(bytes: &[u8]) -> Option<(&[u8], &[u8])>
    ensures { MatchOption result (BeginsNoQuoted bytes.now)
        (λ r. Begins (IsQuoted r.0.now) bytes.now r.1.now) }
{
    match bytes {
        [quote, inside @ ..] if is_quote(*quote) => up_to_byte(*quote, inside),
        _ => None,
    }
}

/// The value of the part with this word at the front, and what stands after it.
///
/// ```rust
/// let part = declaration_part_at(b"version", b" version = '1.0'?>");
/// assert!(rt; part == Some((b"1.0".as_slice(), b"?>".as_slice())));
/// ```
pub fn declaration_part_at<'a>(word: &[u8], bytes: &'a [u8]) -> Option<(&'a [u8], &'a [u8])>
    requires some { word.now ≢ [] }
    requires black { begins is_space word.now ≡ false }
    ensures { MatchOption result (BeginsNoPart word.now bytes.now)
        (λ r. Begins (IsPart word.now r.0.now) bytes.now r.1.now) }
{
    let start = after_blank(bytes)?;
    let named = after_bytes(word, start)?;
    let valued = after_bytes(b"=", after_space(named))?;
    quoted_at(after_space(valued))
}

fn are_digits(bytes: &[u8]) -> bool
    ensures { result ≡ list_all is_ascii_digit bytes.now }
{
    bytes.iter().all(|b| b.is_ascii_digit())
}

// `1.` and digits.
fn is_version_num(value: &[u8]) -> bool
    ensures { IsTrue result ↔ IsVersionNum value.now }
{
    match after_bytes(b"1.", value) {
        Some(digits) => !digits.is_empty() && are_digits(digits),
        None => false,
    }
}

// UTF-8 or US-ASCII, in any case.
fn is_enc_name(value: &[u8]) -> bool
    ensures { IsTrue result ↔ IsEncName value.now }
{
    value.eq_ignore_ascii_case(b"utf-8") || value.eq_ignore_ascii_case(b"us-ascii")
}

fn is_yes_or_no(value: &[u8]) -> bool
    ensures { IsTrue result ↔ IsYesOrNo value.now }
{
    value == b"yes".as_slice() || value == b"no".as_slice()
}

/// What stands after the version at the front (XML 1.0, section 2.8, VersionInfo).
///
/// ```rust
/// assert!(rt; after_version(b" version='1.0'?>") == Some(b"?>".as_slice()));
/// ```
pub fn after_version(bytes: &[u8]) -> Option<&[u8]>
    ensures { MatchOption result (BeginsNone IsVersionInfo bytes.now)
        (λ r. Begins IsVersionInfo bytes.now r.now) }
{
    let (value, rest) = declaration_part_at(b"version", bytes)?;
    if !is_version_num(value) {
        return None;
    }
    Some(rest)
}

/// What stands after the encoding at the front (XML 1.0, section 4.3.3, EncodingDecl).
///
/// ```rust
/// assert!(rt; after_encoding(b" encoding='UTF-8'?>") == Some(b"?>".as_slice()));
/// ```
pub fn after_encoding(bytes: &[u8]) -> Option<&[u8]>
    ensures { MatchOption result (BeginsNone IsEncodingDecl bytes.now)
        (λ r. Begins IsEncodingDecl bytes.now r.now) }
{
    let (value, rest) = declaration_part_at(b"encoding", bytes)?;
    if !is_enc_name(value) {
        return None;
    }
    Some(rest)
}

/// What stands after the standalone part at the front (XML 1.0, section 2.9, SDDecl).
///
/// ```rust
/// assert!(rt; after_standalone(b" standalone='no'?>") == Some(b"?>".as_slice()));
/// ```
pub fn after_standalone(bytes: &[u8]) -> Option<&[u8]>
    ensures { MatchOption result (BeginsNone IsStandaloneDecl bytes.now)
        (λ r. Begins IsStandaloneDecl bytes.now r.now) }
{
    let (value, rest) = declaration_part_at(b"standalone", bytes)?;
    if !is_yes_or_no(value) {
        return None;
    }
    Some(rest)
}

/// What stands after the text declaration at the front (XML 1.0, section 4.3.1, in this project's
/// profile).
///
/// ```rust
/// // test_layers: fronts
/// assert!(rt; after_text_decl(b"<?xml encoding = 'us-ASCII'?>") == Some(b"".as_slice()));
/// ```
pub fn after_text_decl(bytes: &[u8]) -> Option<&[u8]>
    ensures { MatchOption result (BeginsNone IsTextDecl bytes.now)
        (λ r. Begins IsTextDecl bytes.now r.now) }
{
    let start = after_bytes(b"<?xml", bytes)?;
    let version = after_version(start).unwrap_or(start);
    let encoding = after_encoding(version).unwrap_or(version);
    let end = after_standalone(encoding).unwrap_or(encoding);
    if end.len() == start.len() {
        return None;
    }
    after_bytes(b"?>", after_space(end))
}

/// What stands after the XML declaration at the front (XML 1.0, section 2.8).
///
/// ```rust
/// // test_layers: fronts
/// assert!(rt; after_xml_decl(b"<?xml version='1.10'?>c") == Some(b"c".as_slice()));
/// assert!(rt; after_xml_decl(b"<?xml?>").is_none());
/// ```
pub fn after_xml_decl(bytes: &[u8]) -> Option<&[u8]>
    ensures { MatchOption result (BeginsNone IsXmlDecl bytes.now)
        (λ r. Begins IsXmlDecl bytes.now r.now) }
{
    let start = after_bytes(b"<?xml", bytes)?;
    let version = after_version(start)?;
    let encoding = after_encoding(version).unwrap_or(version);
    let end = after_standalone(encoding).unwrap_or(encoding);
    after_bytes(b"?>", after_space(end))
}
