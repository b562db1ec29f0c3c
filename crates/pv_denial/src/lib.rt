//! Denials: why inserting elements can't make a document valid, as a small table, and its judge.
//!
//! A denial names a list, the cause why it is impossible (`specs/Causes.antt`) and, where the cause
//! is its word, rows of places (`specs/Rows.antt`): for sites of the missing grammar, the furthest
//! places that derivations lead to. `judge` tests a denial (`specs/Judgements.antt`): the list is
//! there, the cause holds, the rows are a barrier that no derivation leads beyond, and the word
//! isn't reached. What passes all tests is impossible, whoever made it, as `laws` says: that rests
//! on definitions and laws alone. The crate stands on nothing that finds verdicts or furthest
//! places.
#![tactic(auto)]

mod barrier;
mod causes;
mod denials;
mod errors;
mod forms;
mod index;
mod judging;
pub mod laws;
mod listing;
mod names;
mod places;
mod rules;

pub use causes::cause_of;
pub use denials::{Cause, Denial, Flaw, Judged, MAX_VALUES, Row, Rows};
pub use errors::JudgeError;
pub use judging::judge;
pub use places::{OwnedList, place_at};
