//! Potential validity: what it means that inserting elements can make a document valid, and the
//! laws of it.
//!
//! The definitions are in `specs/`: extensions of a document and its completions, the words that
//! are possible for the content of an element, the verdict of a list of kids, and how many elements
//! are missing in one. The crate exports the types that verdicts are told in (`Of`, `Verdicts`,
//! by specs/Verdicts.antt), whose list one is (`element_owner`, `root_owner`, by
//! specs/Owners.antt), the word that verdicts are found by (`live_word`, by specs/LiveWords.antt)
//! and whether its names are productive (`are_productive`), and whether it is short enough
//! (`is_narrow`, `is_narrow_for_weights`, by specs/Widths.antt).
#![tactic(auto)]

pub mod laws;
mod list_owners;
mod live;
mod owners;
mod productive;
mod verdicts;
mod widths;

pub use list_owners::{element_owner, root_owner};
pub use live::live_word;
pub use owners::Of;
pub use productive::are_productive;
pub use pv_rules::Site;
pub use verdicts::Verdicts;
pub use widths::{is_narrow, is_narrow_for_weights};
