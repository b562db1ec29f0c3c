//! How many elements are missing in a document with wide lists, by two bounds that mostly meet.
//!
//! Where a list is too wide to weigh, `pv_complete` tells nothing. `missing` tells of it all the
//! same: of each Possible list it makes fronts (pv_bounds), by which a bound is known of what is
//! missing in it, and of these fronts a completion. What is made is promised nothing of; what is
//! told is checked: the fronts are closed, so that the sum of their bounds is at most the number of
//! every completion (`bounds_add_up_law` of pv_missing), and the text that was written is one of a
//! valid document that is the given one with elements inserted (pv_compare, pv_flat). Where the sum is
//! as large as the number of these, it is the least one.
//!
//! `specs/BoundAnswers.antt` says what is told, and when the refusals come.
#![tactic(auto)]

mod answers;
mod bounding;
mod checking;
mod deadlines;
mod errors;
mod known;
pub mod laws;
mod making;
mod tags;
mod telling;
mod word_bounds;

pub use answers::{Completion, Missing};
pub use deadlines::{Deadline, NoDeadline};
pub use errors::LongError;
pub use telling::missing;
