//! Changes of a word.

ghost use Rattle.std.specs.Prelude.{◌≡◌, ◌≤◌, IfOk, length, map};
ghost use Rattle.std.specs.List.{splice};
ghost use Rattle.std.specs.Option.{option_map};
ghost use Rattle.pv_rematch.specs.Changes.{word_before};
ghost use Rattle.pv_missing.specs.PlainForms.{plain_of};
ghost use Rattle.pv_model.specs.PlainForms.{plain_token};
ghost use Rattle.pv_productive.specs.PlainForms.{dtd_of};
ghost use Rattle.pv_verdicts.specs.Judged.{IsJudged};

use pv_missing::Of;
use pv_model::Token;
use pv_reach::{Judge, word_verdict};
use pv_rematch::WordChange;
use pv_steps::Steps;
use pv_tree::Verdict;
use pv_verdicts::Judged;
use std::alloc::{AllocError, Global};
use std::sync::ledger::Ledger;
use std::test::Fail;

/// The word in which these tokens came in place of those from one place up to another.
pub fn spliced(
    alloc: Global,
    word: &[Token],
    from: usize,
    to: usize,
    came: &[Token],
) -> Result<Vec<Token>, AllocError>
    requires order { from ≤ to }
    requires within { to ≤ length word.now }
    ensures { IfOk result (λ after. after.items ≡ splice word.now from to came.now) }
{
    let mut after = Vec::from_slice(alloc, &word[..from])?;
    after.extend_from_slice(came)?;
    after.extend_from_slice(&word[to..])?;
    Ok(after)
}

/// Tells the verdict of a word after a change by what is kept of the word before, and makes of that
/// what is kept of the word after, found with the verdict or apart from it. The verdict is the one
/// that is found anew.
pub fn make_change<L: Ledger>(
    judge: &Judge<'_>,
    owner: Option<Of>,
    judged: &mut Judged,
    change: &WordChange<'_>,
    is_apart: bool,
    steps: &mut Steps<L>,
) -> Result<Verdict, Fail>
    requires { IsJudged (dtd_of judge.now) (option_map plain_of owner)
        (map plain_token (word_before change.now)) judged.old }
    ensures { IfOk result (λ _. IsJudged (dtd_of judge.now) (option_map plain_of owner)
        (map plain_token change.now.word.now) judged.new) }
{
    let is_bare = change.word.is_empty();
    let (verdict, turned) = judged.verdict_after(judge, owner, change, is_bare, steps)?;
    if word_verdict(judge, owner, change.word, is_bare, steps)? != verdict {
        return Err(Fail::new("another verdict is found anew"));
    }
    if is_apart {
        let turned = judged.turned(judge, owner, change)?;
        judged.make(turned);
    } else {
        judged.make(turned);
    }
    Ok(verdict)
}
