//! The missing grammar: what missing elements may add to a document, as sites and rules over the
//! tokens of a word.
//!
//! A site is an element of a name, the content of one, a part of a content model, or the members of
//! a sequence from one on (`specs/Sites.antt`), parts being numbered through the whole DTD
//! (`specs/Numbering.antt`). `specs/Rules.antt` has the rules, each once, as one relation of a site
//! and a span, a cost, and the sites and spans that it is put together from. What rules derive,
//! weights, and what it means that a table or a set is closed (`specs/Derivations.antt`) are said
//! of rules of any kind. A table may be closed at the sites of a DTD (`specs/ClosedTables.antt`),
//! and rows of places may be a barrier (`specs/Barriers.antt`). The laws are functions that do
//! nothing. `FlatDtd` has the parts of a DTD laid out flat, by number, and `has_site` tells its
//! sites.
#![tactic(auto)]

mod flat;
mod flat_dtd;
pub mod laws;
mod layout;
mod limits;
mod sites;

pub use flat::{ContentKind, FlatContent, FlatPart, Kind, Membership};
pub use flat_dtd::FlatDtd;
pub use limits::{HEAVIEST, MAX_MISSING};
pub use sites::{Site, has_site};
