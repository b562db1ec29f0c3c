//! How many tokens of a word a content model doesn't allow alone.

ghost use Rattle.std.specs.Prelude.{IfOk, map};
ghost use Rattle.pv_model.specs.PlainForms.{plain_model, plain_token};
ghost use Rattle.pv_rematch.specs.Changes.{word_before};
ghost use Rattle.pv_rematch.specs.Counts.{AreWithout, IsAllowedAlone};

use crate::changes::WordChange;
use pv_model::{LaidModel, NoMemory, Token};
use std::alloc::Global;

/// The number of the tokens that the model doesn't allow alone.
pub fn refused_count(
    alloc: Global,
    model: &LaidModel,
    declared: u32,
    word: &[Token],
) -> Result<usize, NoMemory>
    ensures { IfOk result
        (AreWithout (IsAllowedAlone declared (plain_model model.now)) (map plain_token word.now)) }
{
    let mut count = 0;
    for token in word {
        if !model.allows(alloc, declared, std::slice::from_ref(token))? {
            count += 1;
        }
    }
    Ok(count)
}

/// The number of such tokens after a change of the word, by the number before.
pub fn count_after(
    alloc: Global,
    model: &LaidModel,
    declared: u32,
    count: usize,
    change: &WordChange<'_>,
) -> Result<usize, NoMemory>
    ensures { IfOk result (λ n.
        AreWithout (IsAllowedAlone declared (plain_model model.now))
        (map plain_token (word_before change.now)) count →
        AreWithout (IsAllowedAlone declared (plain_model model.now))
        (map plain_token change.now.word.now) n) }
{
    let gone_count = refused_count(alloc, model, declared, change.gone)?;
    let came_count = refused_count(alloc, model, declared, change.what_came())?;
    let left = count.saturating_sub(gone_count);
    left.checked_add(came_count).ok_or(NoMemory)
}
