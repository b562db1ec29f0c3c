//! Edits of a document. `shape` tells whether an edit can be made, and else its first reason
//! (`reason_of`); `apply` makes it (`edit_outcome`), by one change of one list (`change_of`,
//! `doc_after`), and gives its inverse (`inverse_of`); `revert` makes the change of an inverse
//! (`change_back`, `doc_back`), which leads back to the document before the edit (`LeadsBack`). An
//! error leaves the document as it was. `prepare` and `prepare_back` make ready what each is going
//! to do, and `make` does it, for a caller that looks at the change before. The laws tell what
//! edits keep, and which lists they leave as they are (`changed_lists`, `origin_of`).
#![tactic(auto)]

mod answers;
mod asks;
mod changes;
mod close_marks;
mod counts;
mod descent;
mod edits;
mod filling;
mod fixed;
mod given;
mod inverses;
pub mod laws;
mod places;
mod preparations;
mod reasons;
mod runs;
mod shapes;
mod tasks;
mod text_preparations;
mod ways_back;

pub use answers::{Done, EditAnswer, VerdictRow, VerdictRows};
pub use asks::Ask;
pub use changes::{make, prepare, prepare_back, revert};
pub use descent::{put_kids, take_kids};
pub use edits::{Edit, Edits};
pub use filling::Filling;
pub use fixed::{apply, shape};
pub use inverses::Inverse;
pub use reasons::{EditError, Reason};
pub use tasks::{Change, Preparation, Task, kid_path};
