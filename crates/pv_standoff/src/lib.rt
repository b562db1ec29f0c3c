//! Ranges beside a text, and the nested elements that they stand for.
//!
//! `read_ranges` reads lines `FROM TO LEVEL NAME` by their grammar (`specs/Lines.antt`). `nest`
//! gives the one document that stands for a text and ranges, or says why there is none: the first
//! range outside the text, the first place that two have, the first two that cross, or that
//! elements stand too deep (`specs/NestOutcomes.antt`). When a document stands for a text and
//! ranges is said by the spans of the finished tree (`specs/Spans.antt`); sorted order and crossing
//! are `specs/Ranges.antt`. `laws` has what follows: where no range is empty and none stands twice,
//! at most one document stands for a text and ranges, and there is one exactly where each range
//! ends within the text and none cross; their order makes no difference.
#![tactic(auto)]

mod building;
mod errors;
pub mod laws;
mod nesting;
mod ranges;
mod reading;
mod refusing;
mod sorting;
mod texts;

pub use errors::{NestError, RangesError};
pub use nesting::nest;
pub use ranges::{Range, Ranges};
pub use reading::read_ranges;
