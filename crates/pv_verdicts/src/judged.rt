//! What is kept of a list's word, so that its verdict after a change is found in steps of the
//! change.

ghost use Rattle.std.specs.Prelude.{◌≡◌, List, IfOk, IfSome, Option, map};
ghost use Rattle.pv_rematch.specs.WordMatches.{IsWordMatch};
ghost use Rattle.pv_dtd.specs.Plain.{PlainDtd};
ghost use Rattle.pv_model.specs.Plain.{PlainToken};
ghost use Rattle.pv_model.specs.PlainForms.{plain_model, plain_token};
ghost use Rattle.pv_rules.specs.Sites.{PlainSite};
ghost use Rattle.pv_verdicts.specs.Judged.{IsKeptAt, IsTurnAt};
ghost use Rattle.pv_verdicts.specs.declared.judged.Kept.{Kept as PlainKept};

use crate::counts::Counts;
use crate::deciding::{Content, content_of, verdict_by};
use pv_chars::NoMemory;
use pv_missing::{Of, is_narrow};
use pv_model::{LaidModel, Token};
use pv_reach::{Judge, ReachError, word_verdict};
use pv_rematch::{Turn, WordChange, WordMatch};
use pv_steps::Steps;
use pv_tree::Verdict;
use std::alloc::Global;
use std::sync::ledger::Ledger;

/// What is kept of the word of an element's list.
#[derive(Debug, Drop)]
pub struct Kept {
    counts: Counts,
    word_match: WordMatch,
}

/// What a change of the word makes of it.
#[derive(Debug, Drop)]
pub struct KeptTurn {
    counts: Counts,
    turn: Turn,
}

/// What is kept of a list's word: whether its tokens keep it from being possible, and whether the
/// content model allows it. Of some words nothing is kept.
#[derive(Debug, Drop)]
pub struct Judged {
    kept: Option<Kept>,
}

/// What a change of the word makes of what is kept. Only `Judged::make` makes it.
#[derive(Debug, Drop)]
pub struct Turned {
    kept: Option<KeptTurn>,
}

/// The match of a word under a content model.
fn match_of(
    alloc: Global,
    model: &LaidModel,
    declared: u32,
    word: &[Token],
) -> Result<WordMatch, NoMemory>
    ensures { IfOk result
        (IsWordMatch declared (plain_model model.now) (map plain_token word.now)) }
{
    WordMatch::of(alloc, model, declared, word).map_err(|_| NoMemory)
}

/// What is kept after a change, of what was kept and what the change makes of it, where there are
/// both.
fn made_of(kept: Option<Kept>, turn: Option<KeptTurn>) -> Option<Kept>
    ensures { (g : PlainDtd) (owner : Option PlainSite) (w : List PlainToken) →
        IfSome turn (λ turn. (old : PlainKept) × (kept ≡ Some old) × IsTurnAt g owner w old turn) →
        IfSome result (IsKeptAt g owner w) }
{
    Some(kept?.made(turn?))
}

impl Kept {
    ghost use Rattle.std.specs.Prelude.{◌≡◌, ℕ, Bool, List, IfErr, IfOk, Some, length, map};
    ghost use Rattle.pv_rematch.specs.Changes.{word_before};
    ghost use Rattle.pv_model.specs.Plain.{PlainToken};
    ghost use Rattle.pv_model.specs.PlainForms.{plain_model, plain_token};
    ghost use Rattle.pv_dtd.specs.Plain.{PlainDtd};
    ghost use Rattle.pv_rules.specs.Sites.{content_site};
    ghost use Rattle.pv_productive.specs.PlainForms.{dtd_of};
    ghost use Rattle.pv_missing.specs.Widths.{FitsVerdict};
    ghost use Rattle.pv_missing.specs.WordVerdicts.{IsVerdictByWord};
    ghost use Rattle.pv_reach.specs.declared.errors.ReachError.TheVariants.{TooWide as too_wide};
    ghost use Rattle.pv_verdicts.specs.Judged.{IsKeptOf, IsTurnOf};
    ghost use Rattle.pv_verdicts.specs.Owners.{IsOpenContent};

    /// What is kept of the word of an element with this content.
    fn of(judge: &Judge<'_>, content: &Content<'_>, word: &[Token]) -> Result<Kept, NoMemory>
        requires { IsOpenContent (dtd_of judge.now) content.now.id.0
            (plain_model content.now.model.now) }
        ensures { IfOk result
            (IsKeptOf (dtd_of judge.now) content.now.id.0 (map plain_token word.now)) }
    {
        let declared = judge.grammar().dtd().count();
        let word_match = match_of(judge.alloc(), content.model, declared, word)?;
        Ok(Kept {
            counts: Counts::of(judge, content.id, word),
            word_match,
        })
    }

    /// What a change of the word makes of it.
    fn turn(
        &self,
        judge: &Judge<'_>,
        content: &Content<'_>,
        change: &WordChange<'_>,
    ) -> Result<KeptTurn, NoMemory>
        requires content { IsOpenContent (dtd_of judge.now) content.now.id.0
            (plain_model content.now.model.now) }
        requires kept { IsKeptOf (dtd_of judge.now) content.now.id.0
            (map plain_token (word_before change.now)) self.now }
        ensures { IfOk result (IsTurnOf (dtd_of judge.now) content.now.id.0
            (map plain_token change.now.word.now) self.now) }
    {
        let declared = judge.grammar().dtd().count();
        let turn = self
            .word_match
            .turn(judge.alloc(), content.model, declared, change)
            .map_err(|_| NoMemory)?;
        Ok(KeptTurn {
            counts: self.counts.after(judge, content.id, change),
            turn,
        })
    }

    /// The verdict of the word after a change, where it isn't too wide, and what the change makes
    /// of what is kept.
    fn verdict_after(
        &self,
        judge: &Judge<'_>,
        content: &Content<'_>,
        change: &WordChange<'_>,
    ) -> Result<(Verdict, KeptTurn), ReachError>
        requires content { IsOpenContent (dtd_of judge.now) content.now.id.0
            (plain_model content.now.model.now) }
        requires kept { IsKeptOf (dtd_of judge.now) content.now.id.0
            (map plain_token (word_before change.now)) self.now }
        ensures verdict { IfOk result (λ found. (none : Bool) → IsVerdictByWord (dtd_of judge.now)
            (Some (content_site content.now.id.0)) (map plain_token change.now.word.now) none
            found.0) }
        ensures turned { IfOk result (λ found. IsTurnOf (dtd_of judge.now) content.now.id.0
            (map plain_token change.now.word.now) self.now found.1) }
        ensures fits { IfOk result (λ _.
            FitsVerdict (dtd_of judge.now) (length change.now.word.now)) }
        ensures wide { IfErr result (λ e. e ≡ too_wide →
            ¬ FitsVerdict (dtd_of judge.now) (length change.now.word.now)) }
    {
        if !is_narrow(judge.grammar().dtd(), change.word.len() as u64) {
            return Err(ReachError::TooWide);
        }
        let turn = self.turn(judge, content, change)?;
        let is_allowed = turn.turn.is_allowed();
        let verdict = verdict_by(judge, content, &turn.counts, is_allowed, change.word)?;
        Ok((verdict, turn))
    }

    /// What is kept after the change.
    fn made(self, turn: KeptTurn) -> Kept
        ensures { (g : PlainDtd) (x : ℕ) (w : List PlainToken) → IsTurnOf g x w self turn →
            IsKeptOf g x w result }
    {
        let mut word_match = self.word_match;
        word_match.make(turn.turn);
        Kept {
            counts: turn.counts,
            word_match,
        }
    }
}

impl Judged {
    ghost use Rattle.std.specs.Prelude.{◌≡◌, ◌+◌, List, IfErr, IfOk, Option, length, map};
    ghost use Rattle.pv_rematch.specs.Changes.{word_before};
    ghost use Rattle.std.specs.Option.{option_map};
    ghost use Rattle.pv_model.specs.Plain.{PlainToken};
    ghost use Rattle.pv_model.specs.PlainForms.{plain_token};
    ghost use Rattle.pv_dtd.specs.Plain.{PlainDtd};
    ghost use Rattle.pv_rules.specs.Sites.{PlainSite};
    ghost use Rattle.pv_productive.specs.PlainForms.{dtd_of};
    ghost use Rattle.pv_missing.specs.PlainForms.{plain_of};
    ghost use Rattle.pv_missing.specs.Widths.{FitsVerdict};
    ghost use Rattle.pv_missing.specs.WordVerdicts.{IsVerdictByWord};
    ghost use Rattle.pv_reach.specs.declared.errors.ReachError.TheVariants.{TooWide as too_wide};
    ghost use Rattle.pv_verdicts.specs.Judged.{IsJudged, IsTurned};

    /// What is kept of a list's word: nothing, unless its owner is an element of a productive name
    /// that isn't EMPTY.
    pub fn of(judge: &Judge<'_>, owner: Option<Of>, word: &[Token]) -> Result<Judged, NoMemory>
        ensures { IfOk result (IsJudged (dtd_of judge.now) (option_map plain_of owner)
            (map plain_token word.now)) }
    {
        let Some(content) = content_of(judge.grammar(), owner) else {
            return Ok(Judged { kept: None });
        };
        let kept = Kept::of(judge, &content, word)?;
        Ok(Judged { kept: Some(kept) })
    }

    /// The verdict of a list's word after a change, as `word_verdict` finds it; and what the change
    /// makes of what is kept, by which the verdict is found. Where nothing is kept, all of the word
    /// is gone over, as it is for a table.
    pub fn verdict_after<L: Ledger>(
        &self,
        judge: &Judge<'_>,
        owner: Option<Of>,
        change: &WordChange<'_>,
        is_bare: bool,
        steps: &mut Steps<L>,
    ) -> Result<(Verdict, Turned), ReachError>
        requires { IsJudged (dtd_of judge.now) (option_map plain_of owner)
            (map plain_token (word_before change.now)) self.now }
        ensures verdict { IfOk result (λ found. IsVerdictByWord (dtd_of judge.now)
            (option_map plain_of owner) (map plain_token change.now.word.now) is_bare found.0) }
        ensures turned { IfOk result (λ found. IsTurned (dtd_of judge.now)
            (option_map plain_of owner) (map plain_token change.now.word.now) self.now found.1) }
        ensures fits { IfOk result (λ _.
            FitsVerdict (dtd_of judge.now) (length change.now.word.now)) }
        ensures wide { IfErr result (λ e. e ≡ too_wide →
            ¬ FitsVerdict (dtd_of judge.now) (length change.now.word.now)) }
        ensures steps { steps.new ≡ steps.old + 1 }
    {
        if let Some(kept) = &self.kept {
            if let Some(content) = content_of(judge.grammar(), owner) {
                steps.tick();
                let (verdict, turn) = kept.verdict_after(judge, &content, change)?;
                return Ok((verdict, Turned { kept: Some(turn) }));
            }
        }
        let verdict = word_verdict(judge, owner, change.word, is_bare, steps)?;
        Ok((verdict, Turned { kept: None }))
    }

    /// What a change of the word makes of what is kept, without a verdict.
    pub fn turned(
        &self,
        judge: &Judge<'_>,
        owner: Option<Of>,
        change: &WordChange<'_>,
    ) -> Result<Turned, NoMemory>
        requires { IsJudged (dtd_of judge.now) (option_map plain_of owner)
            (map plain_token (word_before change.now)) self.now }
        ensures { IfOk result (IsTurned (dtd_of judge.now) (option_map plain_of owner)
            (map plain_token change.now.word.now) self.now) }
    {
        if let Some(kept) = &self.kept {
            if let Some(content) = content_of(judge.grammar(), owner) {
                let turn = kept.turn(judge, &content, change)?;
                return Ok(Turned { kept: Some(turn) });
            }
        }
        Ok(Turned { kept: None })
    }

    /// Makes of what is kept what it is after the change.
    pub fn make(&mut self, turned: Turned)
        ensures { (g : PlainDtd) (owner : Option PlainSite) (w : List PlainToken) →
            IsTurned g owner w self.old turned → IsJudged g owner w self.new }
    {
        let kept = self.kept.take();
        self.kept = made_of(kept, turned.kept);
    }
}
