//! Document type definitions: element declarations and what they say (XML 1.0, section 3.2).
//!
//! `read_dtd` answers what a text means: the DTD that its items are, or the first item in fault
//! with its kind (`specs/Meaning.antt`, over the grammar of items in `specs/Spelling.antt` and the
//! kinds of faults in `specs/Kinds.antt`). Names get their numbers in `specs/Numbering.antt`.
//! `Dtd` holds names and content models; contracts see it as a `PlainDtd` (`specs/Plain.antt`),
//! and its ghost fields say what each DTD keeps (`specs/Facts.antt`). What it means that an
//! element is good, a document valid or a name productive is said here, of hedges
//! (`specs/Hedge.antt`, `specs/Productive.antt`). `laws` has what follows: each text has one
//! meaning; it means a DTD exactly where it is a text of this DTD by XML's productions
//! (`specs/DtdTexts.antt`) and the limits hold; and what other laws ask of a DTD holds of every
//! one (`specs/Proper.antt`).
#![tactic(auto)]

mod declarations;
mod dtd;
mod errors;
mod faults;
mod fronts;
mod items;
pub mod laws;
mod models;
mod names;
mod numbering;
mod particles;
mod parts;
mod reading;
mod rules;

pub use dtd::Dtd;
pub use errors::DtdError;
pub use reading::{MAX_DTD_BYTES, read_dtd};
