//! Lines of words.

ghost use Rattle.std.specs.Prelude.{◌≡◌, ◌<◌, ◌++◌, ◌∷◌, [], ℕ, List, length, decimal};
ghost use Rattle.std.specs.Prelude.{IsTrue, IfSome, MatchOption, OnOk};
ghost use Rattle.pv_words.specs.Fronts.{IsLineOf, IsNumberLine, has_no_feed};
ghost use Rattle.pv_words.specs.Lines.{without_returns};
ghost use Rattle.pv_words.specs.Words.{counted_text, with_feed, words};

use crate::numbers::{push_next_number, written_number};
use pv_chars::delimiters::up_to_byte;
use pv_chars::scan::after_bytes;
use std::alloc::AllocError;

/// The line without the CR bytes at its end.
pub fn without_returns(line: &[u8]) -> &[u8]
    ensures { result.now ≡ without_returns line.now }
{
    let mut end = line.len();
    while end > 0 && line[end - 1] == b'\r' {
        end -= 1;
    }
    &line[..end]
}

/// What stands after the word that begins the line at the front, and after that line.
pub fn line_of<'a>(word: &[u8], bytes: &'a [u8]) -> Option<(&'a [u8], &'a [u8])>
    requires { IsTrue (has_no_feed word.now) }
    ensures line { MatchOption result
        ((args : List ℕ) (rest : List ℕ) → IsLineOf word.now bytes.now args rest → ⊥)
        (λ r. IsLineOf word.now bytes.now r.0.now r.1.now) }
    ensures within { IfSome result (λ r. length r.1.now < length bytes.now) }
{
    let (line, rest) = up_to_byte(b'\n', bytes)?;
    let args = after_bytes(word, line)?;
    Some((args, rest))
}

/// The number, at most this one, of the line of a word and a number at the front, and what stands
/// after the line.
pub fn number_line_at<'a>(word: &[u8], most: u32, bytes: &'a [u8]) -> Option<(u32, &'a [u8])>
    requires { IsTrue (has_no_feed word.now) }
    ensures line { MatchOption result
        ((n : ℕ) (rest : List ℕ) → IsNumberLine word.now most bytes.now n rest → ⊥)
        (λ r. IsNumberLine word.now most bytes.now r.0 r.1.now) }
    ensures within { IfSome result (λ r. length r.1.now < length bytes.now) }
{
    let (digits, rest) = line_of(word, bytes)?;
    let number = written_number(digits)?;
    if most < number {
        return None;
    }
    Some((number, rest))
}

/// Appends a line of a word and a number, as `total 3`, with its LF.
pub fn push_number_line(text: &mut Vec<u8>, word: &[u8], number: u64) -> Result<(), AllocError>
    ensures { OnOk result (text.new.items ≡
        text.old.items ++ with_feed (words (word.now ∷ decimal number ∷ []))) }
{
    text.extend_from_slice(word)?;
    push_next_number(text, number)?;
    text.push(b'\n')?;
    Ok(())
}

/// Appends a line of a word and the number of some bytes, and those bytes with an LF.
pub fn push_counted(text: &mut Vec<u8>, word: &[u8], bytes: &[u8]) -> Result<(), AllocError>
    ensures { OnOk result (text.new.items ≡
        text.old.items ++ counted_text word.now bytes.now) }
{
    push_number_line(text, word, bytes.len() as u64)?;
    text.reserve_exact(bytes.len() + 1)?;
    text.extend_from_slice(bytes)?;
    text.push(b'\n')?;
    Ok(())
}
