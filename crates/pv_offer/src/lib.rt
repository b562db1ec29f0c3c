//! The names that may be put at a place of a document, as an editor's menu shows them.
//!
//! `offer` answers exactly the declared names with which the edit that is asked of is accepted
//! (`AreOffered` in specs/Offers.antt), in order of declaration. Each name's edit is judged beside
//! the tree, by some thread; which ends first changes nothing. Whether the edit can be made, and is
//! within the limits, doesn't depend on the name (`laws`), so it is found out once, by a name that
//! any document may have.
#![tactic(auto)]

mod errors;
pub mod laws;
mod offers;
mod trying;

pub use errors::OfferError;
pub use offers::offer;
pub use pv_edit::Ask;
