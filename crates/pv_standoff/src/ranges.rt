//! Ranges of units of a text, one for each element that is to stand there.

use pv_chars::{Bytes, List};

/// The units of a text from number `from` up to but not including number `to` stand in an element
/// of this name. Of ranges with the same units, that of the lower level stands outside.
#[derive(Debug, Drop)]
pub struct Range {
    pub from: u32,
    pub to: u32,
    pub level: u32,
    pub name: Bytes,
}

/// The ranges of a text, in any order.
pub type Ranges = List<Range>;
