//! The verdicts of a whole document, found by several threads.
//!
//! `check_doc_par` has the contract of `check_doc` of pv_fresh, and so has `check_doc_par_by`,
//! which takes a grammar whose rules are laid out. The lists are gathered in document order as
//! jobs of about a thousand nodes, each job is done by some thread, and the verdicts are taken in
//! document order again: which thread ends first changes nothing. Just before a list is judged,
//! the thread that judges it tells a `Gate` its number.
#![tactic(auto)]

mod check;
mod gate;
mod gathering;
mod jobs;
mod judging;
mod sizes;

pub use check::{check_doc_par, check_doc_par_by};
pub use gate::{Gate, NoGate};
