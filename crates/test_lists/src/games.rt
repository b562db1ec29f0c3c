//! Sessions, by their public calls: after each move, the verdicts that a session tells are those of
//! a fresh check of its document, and the lists that the move changed have its stamp. A refused
//! move changes neither.

mod comparing;
mod games;
mod judging;
mod random;
mod sessions;
