//! What is made of a list: fronts, and the pieces that they lead to. Nothing is promised of it.

pub mod building;
pub mod classes;
pub mod derivations;
pub mod empties;
pub mod ends;
pub mod filling;
pub mod fronts;
pub mod goals;
pub mod grain;
pub mod here;
pub mod known_columns;
pub mod next;
pub mod places;
pub mod shared;
pub mod spreading;
pub mod tails;
pub mod told;
pub mod whole;
pub mod windows;
