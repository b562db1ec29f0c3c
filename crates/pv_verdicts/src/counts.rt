//! How many tokens of a word keep it from being possible.

ghost use Rattle.std.specs.Prelude.{◌≡◌, ◌↔◌, IfSome, IsTrue, map};
ghost use Rattle.pv_rematch.specs.Changes.{word_before};
ghost use Rattle.pv_rematch.specs.Counts.{AreWithout};
ghost use Rattle.pv_model.specs.PlainForms.{plain_token};
ghost use Rattle.pv_productive.specs.PlainForms.{dtd_of};
ghost use Rattle.pv_missing.specs.LiveWords.{IsProductiveToken};
ghost use Rattle.pv_reach.specs.TokensTaken.{IsFreeContent};
ghost use Rattle.pv_verdicts.specs.TokenCounts.{IsTakenToken};

use pv_missing::are_productive;
use pv_model::{NameId, Token};
use pv_reach::{FreeContent, Judge};
use pv_rematch::WordChange;

/// How many tokens of a word keep it from being possible for the content of a name.
#[derive(Clone, Copy, Debug)]
pub struct Counts {
    /// Those of names that aren't productive.
    pub unproductive: usize,
    /// Where the content is free, these and those that it doesn't take.
    pub untaken: Option<usize>,
}

fn is_productive(judge: &Judge<'_>, token: Token) -> bool
    ensures { IsTrue result ↔ IsProductiveToken (dtd_of judge.now) (plain_token token) }
{
    are_productive(judge.grammar(), &[token])
}

fn is_taken(judge: &Judge<'_>, id: NameId, content: &FreeContent<'_>, token: Token) -> bool
    requires { content.now ≡ record { grammar = judge.now; name = id.0 } }
    ensures { IsTrue result ↔ IsTakenToken (dtd_of judge.now) id.0 (plain_token token) }
{
    is_productive(judge, token) && content.takes(token)
}

/// How many tokens of the word stand for elements whose names aren't productive.
fn unproductive_in(judge: &Judge<'_>, word: &[Token]) -> usize
    ensures { AreWithout (IsProductiveToken (dtd_of judge.now)) (map plain_token word.now) result }
{
    let mut count = 0;
    for token in word {
        if !is_productive(judge, *token) {
            count += 1;
        }
    }
    count
}

/// How many aren't taken by the content of a name, which is free.
fn untaken_in(judge: &Judge<'_>, id: NameId, content: &FreeContent<'_>, word: &[Token]) -> usize
    requires { content.now ≡ record { grammar = judge.now; name = id.0 } }
    ensures { AreWithout (IsTakenToken (dtd_of judge.now) id.0) (map plain_token word.now) result }
{
    let mut count = 0;
    for token in word {
        if !is_taken(judge, id, content, *token) {
            count += 1;
        }
    }
    count
}

/// How many tokens of a word stand for elements whose names aren't productive, after a change, by
/// how many of the word before do.
fn unproductive_after(judge: &Judge<'_>, before: usize, change: &WordChange<'_>) -> usize
    requires { AreWithout (IsProductiveToken (dtd_of judge.now))
        (map plain_token (word_before change.now)) before }
    ensures { AreWithout (IsProductiveToken (dtd_of judge.now))
        (map plain_token change.now.word.now) result }
{
    let old = unproductive_in(judge, change.gone);
    let new = unproductive_in(judge, change.what_came());
    before - old + new
}

/// How many aren't taken by the content of a name, where that is free and so many of the word
/// before are known.
fn untaken_after(
    judge: &Judge<'_>,
    id: NameId,
    before: Option<usize>,
    change: &WordChange<'_>,
) -> Option<usize>
    requires { IfSome before (AreWithout (IsTakenToken (dtd_of judge.now) id.0)
        (map plain_token (word_before change.now))) }
    ensures { IfSome result (λ n. IsFreeContent (dtd_of judge.now) id.0 ×
        AreWithout (IsTakenToken (dtd_of judge.now) id.0)
        (map plain_token change.now.word.now) n) }
{
    let all = before?;
    let content = judge.free_content(id)?;
    let old = untaken_in(judge, id, &content, change.gone);
    let new = untaken_in(judge, id, &content, change.what_came());
    Some(all - old + new)
}

/// How many aren't taken by the content of a name, where that is free.
fn untaken_of(judge: &Judge<'_>, id: NameId, word: &[Token]) -> Option<usize>
    ensures { IfSome result (λ n. IsFreeContent (dtd_of judge.now) id.0 ×
        AreWithout (IsTakenToken (dtd_of judge.now) id.0) (map plain_token word.now) n) }
{
    let content = judge.free_content(id)?;
    Some(untaken_in(judge, id, &content, word))
}

impl Counts {
    ghost use Rattle.pv_verdicts.specs.TokenCounts.{AreCounts};

    /// The counts of a word for the content of a name.
    pub(crate) fn of(judge: &Judge<'_>, id: NameId, word: &[Token]) -> Counts
        ensures { AreCounts (dtd_of judge.now) id.0 (map plain_token word.now) result }
    {
        Counts {
            unproductive: unproductive_in(judge, word),
            untaken: untaken_of(judge, id, word),
        }
    }

    /// The counts of a word after a change, by those of the word before.
    pub(crate) fn after(&self, judge: &Judge<'_>, id: NameId, change: &WordChange<'_>) -> Counts
        requires { AreCounts (dtd_of judge.now) id.0
            (map plain_token (word_before change.now)) self.now }
        ensures { AreCounts (dtd_of judge.now) id.0
            (map plain_token change.now.word.now) result }
    {
        Counts {
            unproductive: unproductive_after(judge, self.unproductive, change),
            untaken: untaken_after(judge, id, self.untaken, change),
        }
    }
}
