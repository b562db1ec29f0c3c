//! The verdicts of all lists of a document, each found afresh.
//!
//! `check_doc` looks at the widths of all lists, and then finds each list's verdict, in document
//! order (`HaveVerdicts` of pv_missing), in one step for each. A document is potentially valid
//! exactly where none of them is Impossible; `possible_verdicts` gives its verdicts then, and
//! counts nothing. `first_too_wide` looks at the widths alone.
#![tactic(auto)]

mod check;
mod errors;
mod firsts;
mod fixed;
mod judging;
mod possible;
mod widths;

pub use check::count_lists;
pub use errors::{FreshError, PossibleError};
pub use firsts::with_first;
pub use fixed::check_doc;
pub use judging::{owner_in, owner_under};
pub use possible::possible_verdicts;
pub use widths::first_too_wide;
