//! Packs as text: a least completion, with the tables that show it to be least.
//!
//! A pack text is lines, each of which may stand after the one before it (`specs/Lines.antt`,
//! `specs/Packs.antt`). `write_pack` writes the text of a pack. `take_pack` gives the pack that
//! bytes are the text of, or the first line at fault, or tells that a limit is passed: what bytes
//! mean (`PackMeans`, `specs/Meaning.antt`), which is one thing only, as `laws` says. The
//! lines that denials have too are exported one by one, for pv_denial_text.
#![tactic(auto)]

mod entries;
mod errors;
mod fixed;
pub mod laws;
mod lines;
mod packs;
mod reading;
mod tables;
mod writing;

pub use entries::{letter_at, site_of};
pub use errors::PackError;
pub use fixed::read_pack;
pub use packs::{MAX_PACK_BYTES, Pack};
pub use reading::take_pack;
pub use writing::{kind_word, write_pack};
