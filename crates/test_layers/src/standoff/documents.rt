//! The document of a text and lines of ranges.

use pv_chars::{TextError, is_name, text_units};
use pv_standoff::laws::text_law;
use pv_standoff::{NestError, RangesError, nest, read_ranges};
use pv_write::doc_bytes;
use std::alloc::{AllocError, Global};

/// What comes of a text and lines of ranges.
#[derive(Drop)]
pub enum Ending {
    /// A document of these bytes.
    Nested(Vec<u8>),
    /// No text, for this reason.
    Text(TextError),
    /// No ranges, for this reason.
    Lines(RangesError),
    /// No document, for this reason.
    Refused(NestError),
    /// No memory for the bytes of the document, or the root has no Name.
    Other,
}

/// What comes of a text and lines of ranges.
pub fn ending_of(alloc: Global, root: &str, text: &str, lines: &str) -> Ending {
    text_law();
    let text = match text_units(alloc, text.as_bytes()) {
        Ok(text) => text,
        Err(error) => return Ending::Text(error),
    };
    let ranges = match read_ranges(alloc, lines.as_bytes()) {
        Ok(ranges) => ranges,
        Err(error) => return Ending::Lines(error),
    };
    if !is_name(root.as_bytes()) {
        return Ending::Other;
    }
    let doc = match nest(alloc, root.as_bytes(), &text, &ranges) {
        Ok(doc) => doc,
        Err(error) => return Ending::Refused(error),
    };
    match doc_bytes(alloc, &doc) {
        Ok(bytes) => Ending::Nested(bytes),
        Err(_) => Ending::Other,
    }
}

/// So many lines of ranges over the first unit, each of another level.
pub fn levels(alloc: Global, count: u32) -> Result<String, AllocError> {
    let mut lines = String::new(alloc);
    for level in 0..count {
        lines.push_str(format!(in alloc; "0 1 {level} e\n")?.as_str())?;
    }
    Ok(lines)
}
