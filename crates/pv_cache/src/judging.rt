//! The verdicts of the lists that a change changes, found beside the tree.

ghost use Rattle.std.specs.Prelude.{[], ◌≡◌, ◌↔◌, ◌≤◌, ◌+◌, IfErr, IfOk, IsTrue, length};
ghost use Rattle.std.specs.Option.{option_map};
ghost use Rattle.pv_cache.specs.ChangedWords.{AreFound, AreNarrow, IsInnerFound};
ghost use Rattle.pv_cache.specs.Stamps.{changed_by};
ghost use Rattle.pv_missing.specs.PlainForms.{plain_of};
ghost use Rattle.pv_reach.specs.declared.errors.ReachError.TheVariants.{TooWide as too_wide};

use crate::planned::PlannedGrammar;
use crate::updates::{ChangedVerdicts, InnerVerdict};
use crate::words::Words;
use pv_missing::{Of, element_owner, is_narrow};
use pv_reach::ReachError;
use pv_steps::Steps;
use std::alloc::Global;
use std::sync::ledger::Ledger;

// Whether none of the words is too wide for a verdict.
fn are_narrow(grammar: &PlannedGrammar, words: &Words<'_>) -> bool
    ensures { IsTrue result ↔ AreNarrow grammar.now words.now }
{
    if !is_narrow(grammar.dtd(), words.outer.word.tokens.len() as u64) {
        return false;
    }
    match &words.inner {
        None => true,
        Some(inner) => is_narrow(grammar.dtd(), inner.word.tokens.len() as u64),
    }
}

/// The verdicts of the lists that a change changes, by their words. Nothing is counted where one of
/// them is too wide. `from` is the place of the
/// inner list's owner in the outer list.
pub(crate) fn judge_words<L: Ledger>(
    alloc: Global,
    grammar: &PlannedGrammar,
    owner: Option<Of>,
    words: &Words<'_>,
    from: usize,
    steps: &mut Steps<L>,
) -> Result<ChangedVerdicts, ReachError>
    ensures found { IfOk result (AreFound grammar.now
        (option_map plain_of owner) from words.now) }
    ensures wide { IfErr result (λ e. e ≡ too_wide → ¬ AreNarrow grammar.now words.now) }
    ensures each { IfOk result (λ verdicts.
        steps.new ≡ steps.old + length (changed_by [] verdicts.inner)) }
    ensures none { IfErr result (λ e. e ≡ too_wide → steps.new ≡ steps.old) }
    ensures steps { steps.new ≤ steps.old + 2 }
    ensures later { steps.old ≤ steps.new }
{
    if !are_narrow(grammar, words) {
        return Err(ReachError::TooWide);
    }
    let outer = grammar.verdict_of(alloc, owner, &words.outer.word, steps)?;
    let inner = judge_inner(alloc, grammar, words, from, steps)?;
    Ok(ChangedVerdicts { outer, inner })
}

// The verdict of the inner list, if there is one.
fn judge_inner<L: Ledger>(
    alloc: Global,
    grammar: &PlannedGrammar,
    words: &Words<'_>,
    from: usize,
    steps: &mut Steps<L>,
) -> Result<Option<InnerVerdict>, ReachError>
    ensures found { IfOk result (IsInnerFound grammar.now from words.now.inner) }
    ensures wide { IfErr result (λ e. e ≡ too_wide → ¬ AreNarrow grammar.now words.now) }
    ensures each { IfOk result (λ inner.
        steps.new + 1 ≡ steps.old + length (changed_by [] inner)) }
    ensures steps { steps.new ≤ steps.old + 1 }
    ensures later { steps.old ≤ steps.new }
{
    let Some(inner) = &words.inner else {
        return Ok(None);
    };
    let owner = element_owner(grammar.dtd(), inner.name);
    let verdict = grammar.verdict_of(alloc, owner, &inner.word, steps)?;
    Ok(Some(InnerVerdict {
        place: from,
        verdict,
    }))
}
