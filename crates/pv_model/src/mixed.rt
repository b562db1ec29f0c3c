//! Whether a word is one of mixed content.

ghost use Rattle.std.specs.Prelude.{◌↔◌, ℕ, IsTrue, IfOk, map, Contains, nat_eq};
ghost use Rattle.std.specs.List.{AllByRecursion};
ghost use Rattle.std.specs.HashSet.{contains};
ghost use Rattle.pv_model.specs.Models.{IsOfMixed};
ghost use Rattle.pv_model.specs.Members.{IsOfSet};
ghost use Rattle.pv_model.specs.PlainForms.{plain_token, numbers_of};

use crate::models::{NameId, NoMemory, Token};
use std::alloc::Global;
use std::collections::HashSet;

/// For words of at least so many tokens a list of many names is made a set. That takes as long as
/// some 600 searches of it.
const MIN_SET_TOKENS: usize = 1024;

/// A list of at least so many names is made a set.
pub const MIN_SET_NAMES: usize = 256;

/// Whether each token is data or an element of a listed name.
pub fn has_mixed(alloc: Global, names: &[NameId], word: &[Token]) -> Result<bool, NoMemory>
    ensures { IfOk result (λ b. IsTrue b ↔
        AllByRecursion (IsOfMixed (numbers_of names.now)) (map plain_token word.now)) }
{
    if names.len() < MIN_SET_NAMES || word.len() < MIN_SET_TOKENS {
        return Ok(are_listed(names, word));
    }
    let numbers = set_of(alloc, names)?;
    Ok(are_members(&numbers, word))
}

fn are_listed(names: &[NameId], word: &[Token]) -> bool
    ensures { IsTrue result ↔
        AllByRecursion (IsOfMixed (numbers_of names.now)) (map plain_token word.now) }
{
    for token in word {
        if !is_listed(names, *token) {
            return false;
        }
    }
    true
}

fn is_listed(names: &[NameId], token: Token) -> bool
    ensures { IsTrue result ↔ IsOfMixed (numbers_of names.now) (plain_token token) }
{
    match token {
        Token::Name(name) => names.contains(&name),
        Token::Text => true,
        Token::Other => false,
    }
}

/// The numbers of the names.
pub fn set_of(alloc: Global, names: &[NameId]) -> Result<HashSet<u32>, NoMemory>
    ensures { IfOk result (λ s. (y : ℕ) →
        IsTrue (contains nat_eq s y) ↔ Contains (numbers_of names.now) y) }
{
    let mut numbers = HashSet::new(alloc);
    for name in names {
        numbers.insert(name.0)?;
    }
    Ok(numbers)
}

/// Whether each token is data or an element of a name whose number is in the set.
pub fn are_members(numbers: &HashSet<u32>, word: &[Token]) -> bool
    ensures { IsTrue result ↔ AllByRecursion (IsOfSet numbers.now) (map plain_token word.now) }
{
    for token in word {
        if !is_member(numbers, *token) {
            return false;
        }
    }
    true
}

fn is_member(numbers: &HashSet<u32>, token: Token) -> bool
    ensures { IsTrue result ↔ IsOfSet numbers.now (plain_token token) }
{
    match token {
        Token::Name(name) => numbers.contains(&name.0),
        Token::Text => true,
        Token::Other => false,
    }
}
