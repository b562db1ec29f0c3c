//! Whether a document is another one with the tags of marked elements put in, and nothing else.
//!
//! Documents are read by events, so that elements may stand at any depth and nothing recurses on
//! it. Which events stay where the tags of marked elements are left out is told by `kept_events`
//! (`specs/LeftOut.antt`); `laws` says that this is leaving the elements out of hedges (`IsKept`,
//! `specs/Kept.antt`). `is_kept` compares two documents. `read_body` compares a body with a
//! document's tree, and tells in the same reading which elements have no attribute bytes;
//! `are_marks` tells whether marks ascend and are numbers of such elements.
#![tactic(auto)]

mod comparing;
pub mod laws;
mod marks;
mod reading;
mod tags;
mod trees;
mod wanted;

pub use comparing::{BodyRead, is_kept, read_body};
pub use marks::are_marks;
