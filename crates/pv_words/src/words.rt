//! Words with blanks between, written and read.

ghost use Rattle.std.specs.Prelude.{◌≡◌, ◌++◌, Some, None, MatchOption, OnOk, codes};
ghost use Rattle.pv_words.specs.Words.{first_word};

use pv_chars::delimiters::up_to_byte;
use std::alloc::AllocError;

/// The word before the first blank, and what stands after the blank.
pub fn first_word(bytes: &[u8]) -> Option<(&[u8], &[u8])>
    ensures { MatchOption result (first_word bytes.now ≡ None)
        (λ cut. first_word bytes.now ≡ Some (cut.0.now, cut.1.now)) }
{
    up_to_byte(b' ', bytes)
}

/// Appends a word after a blank.
pub fn push_next_word(text: &mut Vec<u8>, word: &[u8]) -> Result<(), AllocError>
    ensures { OnOk result (text.new.items ≡ text.old.items ++ (codes " " ++ word.now)) }
{
    text.push(b' ')?;
    text.extend_from_slice(word)
}
