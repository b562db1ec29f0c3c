//! What is tested.

use pv_dtd::Dtd;
use pv_model::Token;
use pv_rules::FlatDtd;
use pv_tables::Entry;
use std::alloc::Global;

/// The entries of a table, with the word that they are over, and the DTD, whose parts are laid out
/// flat. What is laid out for the tests takes its memory from `alloc`.
#[derive(Clone, Copy)]
pub struct Tested<'a> {
    pub alloc: Global,
    pub dtd: &'a Dtd,
    pub flat: &'a FlatDtd,
    pub word: &'a [Token],
    pub entries: &'a [Entry],
}
