//! Runs of characters and references: the values of attributes, and character data (XML 1.0,
//! sections 2.3 and 2.4).

ghost use Rattle.std.specs.Prelude.{◌≡◌, ◌↔◌, ◌++◌, ◌⊎◌, [], ◌∷◌, List, ℕ, codes, IsTrue};
ghost use Rattle.pv_chars.specs.Characters.{AreAll};
ghost use Rattle.pv_chars.specs.Fronts.{ContainsBytes};
ghost use Rattle.pv_chars.specs.Units.{is_literal};
ghost use Rattle.pv_tree.specs.Attributes.{AreMadeOf, IsTextPiece};
ghost use Rattle.pv_read.specs.PlainReferences.{IsReferenceOf};
ghost use Rattle.pv_read.specs.Takes.{IsCutBefore};

use crate::forms::references::{References, after_reference};
use memchr::memchr;
use pv_chars::{are_chars, are_simple};

/// The bytes before the first of this byte, and what stands from there on.
pub fn cut_before(byte: u8, bytes: &[u8]) -> (&[u8], &[u8])
    ensures { IsCutBefore byte bytes.now result.0.now result.1.now }
{
    match memchr(byte, bytes) {
        Some(at) => bytes.split_at(at),
        None => bytes.split_at(bytes.len()),
    }
}

// Whether each character stands for itself.
fn are_literals(bytes: &[u8]) -> bool
    requires { ContainsBytes bytes.now (codes "&") → ⊥ }
    ensures { IsTrue result ↔ AreAll is_literal bytes.now }
{
    if are_simple(bytes) {
        return true;
    }
    match memchr(b'<', bytes) {
        Some(_) => false,
        None => are_chars(bytes),
    }
}

/// Whether the bytes are characters that stand for themselves, and such references.
pub fn are_pieces(references: References, bytes: &[u8]) -> bool
    ensures { IsTrue result ↔ AreMadeOf (IsTextPiece (IsReferenceOf references)) bytes.now }
{
    let mut rest = bytes;
    'references: loop {
        let (before, more) = cut_before(b'&', rest);
        if !are_literals(before) {
            return false;
        }
        if more.is_empty() {
            return true;
        }
        match after_reference(references, more) {
            Some(behind) => rest = behind,
            None => return false,
        }
    }
}
