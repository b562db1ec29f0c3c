//! What is tested.

ghost use Rattle.std.specs.Prelude.{◌≡◌, length};

use crate::fronts::Fronts;
use pv_model::Token;

/// Fronts, with the word of so many tokens that they are claimed for.
#[derive(Clone, Copy)]
pub struct Claim<'a> {
    pub word: &'a [Token],
    pub tokens: u32,
    pub fronts: &'a Fronts,
    pub ghost long: { tokens ≡ length word.now },
}
