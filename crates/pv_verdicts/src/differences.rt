//! Where two words differ.

ghost use Rattle.std.specs.Prelude.{◌≡◌, ◌≤◌, ◌+◌, ℕ, take, drop, length};
ghost use Rattle.pv_rematch.specs.Changes.{word_before};

use pv_model::Token;
use pv_rematch::WordChange;

// How many tokens at the start of two words are the same.
fn common_front(before: &[Token], after: &[Token]) -> usize
    ensures before { result ≤ length before.now }
    ensures after { result ≤ length after.now }
    ensures same { take result before.now ≡ take result after.now }
{
    let most = before.len().min(after.len());
    for front in 0..most {
        if before[front] != after[front] {
            return front;
        }
    }
    most
}

// How many tokens at the end of two words are the same.
fn common_back(before: &[Token], after: &[Token]) -> usize
    ensures before { result ≤ length before.now }
    ensures after { result ≤ length after.now }
    ensures same { (i j : ℕ) → i + result ≡ length before.now → j + result ≡ length after.now →
        drop i before.now ≡ drop j after.now }
{
    let most = before.len().min(after.len());
    for back in 0..most {
        if before[before.len() - 1 - back] != after[after.len() - 1 - back] {
            return back;
        }
    }
    most
}

/// The change that makes a word of the one before it: what stands between the tokens that both
/// begin with and those that both end in.
pub fn change_between<'a>(before: &'a [Token], after: &'a [Token]) -> WordChange<'a>
    ensures after { result.word.now ≡ after.now }
    ensures before { word_before result ≡ before.now }
{
    let from = common_front(before, after);
    let back = common_back(&before[from..], &after[from..]);
    WordChange {
        word: after,
        from,
        gone: &before[from..before.len() - back],
        came: after.len() - back - from,
    }
}
