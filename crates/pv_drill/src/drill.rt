//! The document of the drill, and the lines of its script.

ghost use Rattle.std.specs.Prelude.{◌≡◌, ◌≤◌, ◌++◌, ◌%◌, IfOk, OnOk, codes, decimal};
ghost use Rattle.pv_drill.specs.Drill.{DRILL_DTD, drill_text, section_line, section_text};

use itoa::Buffer;
use pv_chars::NoMemory;
use std::alloc::{AllocError, Global};

/// The DTD of the drill. Its root is `doc`.
pub fn drill_dtd() -> &'static [u8]
    ensures { result.now ≡ DRILL_DTD }
{
    b"<!ELEMENT doc (head, sec+)>\n<!ELEMENT head (#PCDATA)>\n\
    <!ELEMENT sec (title?, (p|list)*)>\n<!ELEMENT title (#PCDATA)>\n\
    <!ELEMENT p (#PCDATA|em|br)*>\n<!ELEMENT em (#PCDATA|em)*>\n<!ELEMENT br EMPTY>\n\
    <!ELEMENT list (item, item+)>\n<!ELEMENT item (p+)>\n"
}

// Appends a section.
fn push_section(text: &mut Vec<u8>, k: u32) -> Result<(), AllocError>
    ensures { OnOk result (text.new.items ≡ text.old.items ++ section_text k) }
{
    let mut buffer = Buffer::new();
    text.extend_from_slice(b"<sec>t")?;
    text.extend_from_slice(buffer.format(k).as_bytes())?;
    text.extend_from_slice(b"</sec>")?;
    Ok(())
}

/// The document of the drill with so many sections.
pub fn drill_doc(alloc: Global, n: u32) -> Result<Vec<u8>, NoMemory>
    requires some { 1 ≤ n }
    requires most { n ≤ 20000 }
    ensures { IfOk result (λ text. text.items ≡ drill_text n) }
{
    let mut text = Vec::from_slice(alloc, b"<doc><head>drill</head>")?;
    let mut k = 0;
    while k < n {
        k += 1;
        push_section(&mut text, k)?;
    }
    text.extend_from_slice(b"</doc>")?;
    Ok(text)
}

// `wrap` of the text of a section into an element.
fn wrap_line(alloc: Global, k: u32, name: &[u8]) -> Result<Vec<u8>, AllocError>
    ensures { IfOk result
        (λ line. line.items ≡ codes "wrap 0." ++ (decimal k ++ (codes " 0 1 " ++ name.now))) }
{
    let mut buffer = Buffer::new();
    let mut line = Vec::from_slice(alloc, b"wrap 0.")?;
    line.extend_from_slice(buffer.format(k).as_bytes())?;
    line.extend_from_slice(b" 0 1 ")?;
    line.extend_from_slice(name)?;
    Ok(line)
}

/// A line of the drill's script for section number `k`: 0 wraps its text into an element that
/// can't stand there, 1 into one that can, and 2 undoes that.
pub fn drill_line(alloc: Global, k: u32, which: u32) -> Result<Vec<u8>, NoMemory>
    requires some { 1 ≤ k }
    requires most { k ≤ 20000 }
    requires line { which ≤ 2 }
    requires third { which ≡ 2 → k % 3 ≡ 0 }
    ensures { IfOk result (λ line. line.items ≡ section_line k which) }
{
    match which {
        0 => Ok(wrap_line(alloc, k, b"br")?),
        1 => Ok(wrap_line(alloc, k, b"p")?),
        _ => Ok(Vec::from_slice(alloc, b"undo")?),
    }
}
