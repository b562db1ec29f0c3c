//! The words of causes.

ghost use Rattle.std.specs.Prelude.{◌≡◌, ◌↔◌, IsTrue, MatchOption};
ghost use Rattle.pv_denial.specs.declared.denials.Cause.{Cause as PlainCause};
ghost use Rattle.pv_denial_text.specs.Lines.{cause_word};

use pv_denial::Cause;

/// The word of a cause.
pub fn cause_word(cause: Cause) -> &'static [u8]
    ensures { result.now ≡ cause_word cause }
{
    match cause {
        Cause::Undeclared => b"undeclared",
        Cause::Unproductive => b"unproductive",
        Cause::Empty => b"empty",
        Cause::Word => b"word",
    }
}

// Whether a word is that of a cause.
fn is_word_of(word: &[u8], cause: Cause) -> bool
    ensures { IsTrue result ↔ (word.now ≡ cause_word cause) }
{
    word == cause_word(cause)
}

/// The cause that a word is.
pub fn cause_by(word: &[u8]) -> Option<Cause>
    ensures { MatchOption result ((c : PlainCause) → word.now ≡ cause_word c → ⊥)
        (λ c. word.now ≡ cause_word c) }
{
    if is_word_of(word, Cause::Undeclared) {
        Some(Cause::Undeclared)
    } else if is_word_of(word, Cause::Unproductive) {
        Some(Cause::Unproductive)
    } else if is_word_of(word, Cause::Empty) {
        Some(Cause::Empty)
    } else if is_word_of(word, Cause::Word) {
        Some(Cause::Word)
    } else {
        None
    }
}
