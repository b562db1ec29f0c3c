//! Characters, names, markup, references and texts at the front of some bytes.

use crate::base::tables::{
    CHARS, NAME_CHARS, NAME_STARTS, NO_CHARS, NO_NAME_CHARS, NO_NAME_STARTS,
};
use pv_chars::declarations::{after_text_decl, after_xml_decl, quoted_at};
use pv_chars::markup::{after_cdata, after_comment, after_instruction};
use pv_chars::references::{after_char_ref, entity_ref_at};
use pv_chars::scan::{after_blank, after_byte_order_mark, space_length};
use pv_chars::utf8::char_at;
use pv_chars::{
    Labels, Numbers, TextError, Units, are_chars, bytes_of, is_char, is_name, is_name_char,
    is_name_start, text_units,
};
use std::alloc::Global;
use std::process::Abort;
use std::test::Fail;
use test_fixture::rows::expect;

/// A set of characters.
#[derive(Clone, Copy)]
enum Set {
    Chars,
    NameStarts,
    NameChars,
}

impl Set {
    fn has(self, code: u32) -> bool {
        match self {
            Set::Chars => is_char(code),
            Set::NameStarts => is_name_start(code),
            Set::NameChars => is_name_char(code),
        }
    }
}

/// Sets, each with code points, and whether it has them.
const SETS: [(Set, &[u32], bool); 6] = [
    (Set::Chars, &CHARS, true),
    (Set::Chars, &NO_CHARS, false),
    (Set::NameStarts, &NAME_STARTS, true),
    (Set::NameStarts, &NO_NAME_STARTS, false),
    (Set::NameChars, &NAME_CHARS, true),
    (Set::NameChars, &NO_NAME_CHARS, false),
];

#[test]
fn sets(rt: HostRuntime) -> Result<(), Fail> {
    for (set, codes, is_in) in &SETS {
        for code in *codes {
            expect(set.has(*code) == *is_in, code)?;
        }
    }
    Ok(())
}

/// Bytes, each with the character at their front and the bytes after it.
static FORMS: [(&[u8], Option<(u32, &[u8])>); 25] = [
    (b"A", Some((0x41, b""))),
    (b"\xC2\x80", Some((0x80, b""))),
    (b"\xDF\xBFx", Some((0x7FF, b"x"))),
    (b"\xE0\xA0\x80", Some((0x800, b""))),
    (b"\xED\x9F\xBF", Some((0xD7FF, b""))),
    (b"\xEE\x80\x80", Some((0xE000, b""))),
    (b"\xEF\xBF\xBF", Some((0xFFFF, b""))),
    (b"\xF0\x90\x80\x80", Some((0x10000, b""))),
    (b"\xF4\x8F\xBF\xBF", Some((0x10FFFF, b""))),
    (b"", None),
    (b"\x80", None),
    (b"\xBF", None),
    (b"\xC0\x80", None),
    (b"\xC1\xBF", None),
    (b"\xC2", None),
    (b"\xC2A", None),
    (b"\xE0\x9F\xBF", None),
    (b"\xE2\x82", None),
    (b"\xED\xA0\x80", None),
    (b"\xED\xBF\xBF", None),
    (b"\xF0\x8F\xBF\xBF", None),
    (b"\xF0\x9F\x98", None),
    (b"\xF4\x90\x80\x80", None),
    (b"\xF5\x80\x80\x80", None),
    (b"\xFF", None),
];

#[test]
fn shortest_forms(rt: HostRuntime) -> Result<(), Fail> {
    for (bytes, code) in &FORMS {
        expect(char_at(*bytes) == *code, bytes)?;
    }
    Ok(())
}

/// Bytes, each with whether they are a name.
static NAMES: [(&[u8], bool); 11] = [
    (b"_a.1-B", true),
    (b"a:b", true),
    (b"\xD0\x98\xD0\xBC\xD1\x8F", true),
    (b"\xC3\xA9\xC2\xB7", true),
    (b"\xF0\x90\x80\x80", true),
    (b"", false),
    (b"1a", false),
    (b"a b", false),
    (b"\xC3", false),
    (b"a\xFF", false),
    (b"\xCC\x80", false),
];

#[test]
fn names(rt: HostRuntime) -> Result<(), Fail> {
    for (bytes, is) in &NAMES {
        expect(is_name(*bytes) == *is, bytes)?;
    }
    Ok(())
}

/// What may stand at the front of some bytes.
#[derive(Clone, Copy)]
enum Front {
    Blank,
    ByteOrderMark,
    Comment,
    Instruction,
    Cdata,
    XmlDecl,
    TextDecl,
    CharRef,
}

impl Front {
    // The bytes after it.
    fn after(self, bytes: &[u8]) -> Option<&[u8]> {
        match self {
            Front::Blank => after_blank(bytes),
            Front::ByteOrderMark => Some(after_byte_order_mark(bytes)),
            Front::Comment => after_comment(bytes),
            Front::Instruction => after_instruction(bytes),
            Front::Cdata => after_cdata(bytes),
            Front::XmlDecl => after_xml_decl(bytes),
            Front::TextDecl => after_text_decl(bytes),
            Front::CharRef => after_char_ref(bytes),
        }
    }
}

/// Bytes, each with what may stand at their front, and those after it.
static FRONTS: [(Front, &[u8], Option<&[u8]>); 38] = [
    (Front::Blank, b" x", Some(b"x")),
    // only one mark is taken
    (
        Front::ByteOrderMark,
        b"\xEF\xBB\xBF\xEF\xBB\xBFa",
        Some(b"\xEF\xBB\xBFa"),
    ),
    (Front::ByteOrderMark, b"\xEF\xBBa", Some(b"\xEF\xBBa")),
    (Front::Comment, b"<!--a-b-->c", Some(b"c")),
    (Front::Comment, b"<!--a--b-->", None),
    (Front::Comment, b"<!--a--->", None),
    (Front::Comment, b"<!-->", None),
    (Front::Comment, b"<!--\xFF-->", None),
    (Front::Instruction, b"<?a?>c", Some(b"c")),
    (Front::Instruction, b"<?xml-s  ?b? ?>", Some(b"")),
    (Front::Instruction, b"<?XmL?>", None),
    (Front::Instruction, b"<?a>?>", None),
    (Front::Instruction, b"<?a?b?>", None),
    (Front::Cdata, b"<![CDATA[a]]]>c", Some(b"c")),
    (Front::CharRef, b"&#00065;c", Some(b"c")),
    (Front::CharRef, b"&#x10fffF;", Some(b"")),
    (Front::CharRef, b"&#;", None),
    (Front::CharRef, b"&#0;", None),
    (Front::CharRef, b"&#xFFFF;", None),
    (Front::CharRef, b"&#x110000;", None),
    (Front::CharRef, b"&#1a;", None),
    (Front::CharRef, b"&#65", None),
    (Front::XmlDecl, b"<?xml version='1.10'?>c", Some(b"c")),
    (
        Front::XmlDecl,
        b"<?xml version='1.0' encoding=\"utf-8\" standalone='no' ?>",
        Some(b""),
    ),
    (Front::XmlDecl, b"<?xml encoding = 'us-ASCII'?>", None),
    (Front::XmlDecl, b"<?xml?>", None),
    (Front::XmlDecl, b"<?xml version='1.'?>", None),
    (Front::XmlDecl, b"<?xml version='1.0\"?>", None),
    (
        Front::XmlDecl,
        b"<?xml standalone='yes' version='1.0'?>",
        None,
    ),
    (
        Front::XmlDecl,
        b"<?xml version='1.0' encoding='latin1'?>",
        None,
    ),
    (Front::TextDecl, b"<?xml version='1.10'?>c", Some(b"c")),
    (
        Front::TextDecl,
        b"<?xml version='1.0' encoding=\"utf-8\" standalone='no' ?>",
        Some(b""),
    ),
    (Front::TextDecl, b"<?xml encoding = 'us-ASCII'?>", Some(b"")),
    (Front::TextDecl, b"<?xml?>", None),
    (Front::TextDecl, b"<?xml version='1.'?>", None),
    (Front::TextDecl, b"<?xml version='1.0\"?>", None),
    (
        Front::TextDecl,
        b"<?xml standalone='yes' version='1.0'?>",
        None,
    ),
    (
        Front::TextDecl,
        b"<?xml version='1.0' encoding='latin1'?>",
        None,
    ),
];

#[test]
fn fronts(rt: HostRuntime) -> Result<(), Fail> {
    for (front, bytes, rest) in &FRONTS {
        expect(front.after(*bytes) == *rest, bytes)?;
    }
    Ok(())
}

#[test]
fn fronts_with_parts(rt: HostRuntime) {
    assert!(rt; quoted_at(b"'a\"b'c") == Some((b"a\"b".as_slice(), b"c".as_slice())));
    assert!(rt; entity_ref_at(b"&lt;c") == Some((b"lt".as_slice(), b"c".as_slice())));
}

#[test]
fn scans(rt: HostRuntime) {
    assert!(rt; space_length(b" \t\r\nx ") == 4);
    assert!(rt; are_chars("текст €\t".as_bytes()));
    assert!(rt; !are_chars(b"a\x00"));
}

/// Bytes, each with the number of units of the text that they are, and whether it has data, or with
/// why they are none.
static TEXTS: [(&[u8], Result<(usize, bool), TextError>); 12] = [
    (b"a &#32;\xC3\xA9", Ok((4, true))),
    (b" \t\r\n", Ok((4, false))),
    (b"&#32;", Ok((1, true))),
    (b"plain", Ok((5, true))),
    (b"", Err(TextError::Empty)),
    (b"a<b", Err(TextError::BadChar(1))),
    (b"a\xC3", Err(TextError::BadChar(1))),
    (b"a&b", Err(TextError::BadReference(1))),
    (b"&#xFFFF;", Err(TextError::BadReference(0))),
    (b"&lt;&nbsp;", Err(TextError::Entity(4))),
    (b"a]]>b", Err(TextError::CloseMark(1))),
    (b"]]&gt;<", Err(TextError::BadChar(6))),
];

// The number of units of the text, and whether it has data, or why the bytes are none.
fn told(rt: &impl Abort, alloc: Global, bytes: &[u8]) -> Result<(usize, bool), TextError> {
    let units = text_units(alloc, bytes)?;
    assert!(rt; units.bytes() == bytes, "{bytes:?}");
    Ok((units.len(), units.has_data()))
}

#[test]
fn texts(rt: HostRuntime) -> Result<(), Fail> {
    for (bytes, wanted) in &TEXTS {
        expect(told(&rt, rt.alloc(), *bytes) == *wanted, bytes)?;
    }
    Ok(())
}

// Both texts one after the other, and their copy, are of six units.
fn are_joined(rt: &impl Abort, alloc: Global, part: &Units, units: &Units) -> Result<(), Fail> {
    let both = part.joined(alloc, units)?;
    let copy = both.copy(alloc)?;
    assert!(rt; both.bytes() == " &#32;a &#32;é".as_bytes());
    assert!(rt; copy.len() == 6 && copy.bytes() == both.bytes());
    Ok(())
}

#[test]
fn parts_of_texts(rt: HostRuntime) -> Result<(), Fail> {
    let units = text_units(rt.alloc(), "a &#32;é".as_bytes())?;
    assert!(rt; units.len() == 4);
    let part = units.part(rt.alloc(), 1, 3)?;
    assert!(rt; part.bytes() == b" &#32;".as_slice());
    are_joined(&rt, rt.alloc(), &part, &units)
}

#[test]
fn halves_of_texts(rt: HostRuntime) -> Result<(), Fail> {
    let units = text_units(rt.alloc(), "a &#32;é".as_bytes())?;
    assert!(rt; units.len() == 4);
    let (front, back) = units.cut(rt.alloc(), 3)?;
    assert!(rt; front.len() == 3 && front.bytes() == b"a &#32;".as_slice());
    assert!(rt; back.len() == 1 && back.bytes() == "é".as_bytes());
    Ok(())
}

#[test]
fn lists(rt: HostRuntime) -> Result<(), Fail> {
    let bytes = bytes_of(rt.alloc(), b"xyz")?;
    assert!(rt; bytes.as_slice() == b"xyz".as_slice());
    let numbers = Numbers::of([1, 2].to_vec(rt.alloc())?);
    assert!(rt; numbers.as_slice() == [1, 2].as_slice());
    Ok(())
}

#[test]
fn labels(rt: HostRuntime) -> Result<(), Fail> {
    let labels = Labels::of(vec![in rt.alloc(); bytes_of(rt.alloc(), b"em")?]?);
    assert!(rt; labels.as_slice()[0].as_slice() == b"em".as_slice());
    Ok(())
}
