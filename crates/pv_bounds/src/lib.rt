//! Bounds of what is missing in a list, from how far each column reaches at each cost.
//!
//! Of a list that is too wide for weights over all spans, fronts claim of each column at each place
//! how far it reaches, and at what cost (`specs/Fronts.antt`). Far on, fronts are mostly the same
//! but for a constant, so they share ends there (`Far`). Whoever made them, `are_closed` tests them
//! against the rules of columns (specs of pv_layout): then no column derives anything at less than
//! they say (`specs/Bounds.antt`), and `bound` tells how many elements are missing in a list at
//! least. That fronts hold says nothing of how near they are.
#![tactic(auto)]

mod bounds;
mod claim;
mod closing;
mod columns;
mod covers;
mod cuts;
mod empties;
mod front;
mod fronts;
pub mod laws;
mod windows;

pub use bounds::bound;
pub use closing::are_closed;
pub use front::Front;
pub use fronts::{Far, Fronts, Reach, Row};
