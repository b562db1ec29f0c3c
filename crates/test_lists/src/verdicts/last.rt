//! A word that is judged by the one that was judged last.

ghost use Rattle.std.specs.Prelude.{IfOk};
ghost use Rattle.pv_productive.specs.PlainForms.{dtd_of};
ghost use Rattle.pv_verdicts.specs.LastJudgedWord.{IsLast};

use pv_missing::Of;
use pv_reach::{Judge, word_verdict};
use pv_rematch::WordChange;
use pv_steps::Steps;
use pv_verdicts::LastWord;
use std::sync::ledger::Ledger;
use std::test::Fail;

/// Judges a changed word by the last one. The verdict is the one that is found anew. The word is
/// the last one then: it is compared with it, or follows the change.
pub fn judge_by<L: Ledger>(
    judge: &Judge<'_>,
    owner: Option<Of>,
    last: LastWord,
    change: &WordChange<'_>,
    is_followed: bool,
    steps: &mut Steps<L>,
) -> Result<LastWord, Fail>
    requires { IsLast (dtd_of judge.now) last }
    ensures { IfOk result (IsLast (dtd_of judge.now)) }
{
    if !last.is_of(owner) {
        return Err(Fail::new("the last word has another owner"));
    }
    let word = change.word;
    let is_bare = word.is_empty();
    let verdict = last.verdict(judge, owner, word, is_bare, steps)?;
    if word_verdict(judge, owner, word, is_bare, steps)? != verdict {
        return Err(Fail::new("another verdict is found anew"));
    }
    if is_followed {
        return follow(judge, last, change);
    }
    match last.next(judge, word)? {
        Some(next) => Ok(next),
        None => Ok(LastWord::of(judge, owner, word)?),
    }
}

/// The last word once it follows a change of few tokens.
fn follow(judge: &Judge<'_>, last: LastWord, change: &WordChange<'_>) -> Result<LastWord, Fail>
    requires { IsLast (dtd_of judge.now) last }
    ensures { IfOk result (IsLast (dtd_of judge.now)) }
{
    if let Some(next) = last.follow(judge, change.from, change.gone.len(), change.what_came())? {
        if next.count() == change.word.len() {
            return Ok(next);
        }
    }
    Err(Fail::new("the last word doesn't follow the change"))
}
