//! Characters, names, texts and markup that DTDs and documents share, read from the front of some
//! bytes.
//!
//! Characters are code points in UTF-8's shortest form (`specs/Characters.antt`). A reader says
//! what it read and what stands after it, or that nothing of the kind begins the bytes, by the
//! productions of XML 1.0: Name, Comment, PI, CDSect, the XML declaration and its parts, Reference
//! (`specs/Names.antt`, `Markup.antt`, `Declarations.antt`, `References.antt`). `text_units` cuts
//! a text into units, or tells its first fault (`specs/Units.antt`). `laws` has what follows: each
//! reading is one only. `List` is what other crates keep their lists in.
#![tactic(auto)]

pub mod char_reading;
mod characters;
pub mod declarations;
pub mod delimiters;
mod errors;
mod last_units;
pub mod laws;
mod lists;
pub mod markup;
mod memory;
mod names;
pub mod references;
pub mod scan;
mod unit_places;
mod unit_text;
pub mod utf8;

pub use characters::{are_chars, is_char, is_name_char, is_name_start};
pub use errors::TextError;
pub use lists::{Bytes, Labels, List, Numbers, bytes_of};
pub use memory::NoMemory;
pub use names::{is_name, name_at};
pub use unit_text::{Units, are_simple, is_predefined, text_units};
