//! How many elements are missing in a document, and a least completion of it.
//!
//! `need` tells the least number of elements whose insertion makes a document valid (`IsLeast` of
//! pv_missing). The weights of the Possible lists add up to it (`possible_weights_law` of
//! pv_tables); a Valid list weighs nothing, and takes no table. `specs/NeededElements.antt` says
//! what is answered, and when each refusal comes. `tables` gives all light weights of each Possible
//! list (`specs/Tables.antt`). A least completion of one list is put together piece by piece
//! (`specs/Pieces.antt`), by the weights of all sites over its word.
//!
//! `complete` finds the pieces of each list (`src/writing/by_verdict.rt`), and pv_write puts them
//! into the document. `specs/LeastCompletions.antt` and `specs/GrownTrees.antt` say what it gives,
//! `specs/ListPieces.antt` how the walk over the lists carries the proof, and
//! `specs/MergedLists.antt` what a list with its pieces is. `complete_with_tables` gives both, for
//! a pack: a list's weights are found once, and what else is read off them is kept beside them
//! (`src/missing/known.rt`).
#![tactic(auto)]

mod errors;
mod fixed;
pub mod laws;
mod listings;
mod missing;
mod tabled;
mod words;
mod writing;

pub use errors::NeedError;
pub use fixed::{complete, need, tables};
pub use missing::remembering::{Remembered, complete_remembering, need_remembering};
pub use tabled::{TabledCompletion, complete_with_tables};
pub use writing::completion::{Completion, complete_by};
