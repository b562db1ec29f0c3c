//! The word that was judged last, by which one that differs from it little is judged.

ghost use Rattle.std.specs.Prelude.{◌≡◌, ◌≤◌, ◌+◌, ◌-◌, ◌++◌, IfOk, OnOk, drop, take, vec_len};
ghost use Rattle.std.specs.List.{between, splice};

use crate::differences::change_between;
use crate::judged::Judged;
use pv_chars::NoMemory;
use pv_missing::Of;
use pv_model::Token;
use pv_reach::{Judge, ReachError, word_verdict};
use pv_rematch::WordChange;
use pv_steps::Steps;
use pv_tree::Verdict;
use std::alloc::Global;
use std::sync::ledger::Ledger;

/// A word from which more tokens are gone, or into which more came, is judged anew: by the last
/// word it takes steps of those, and the last word may be far longer.
const MAX_CHANGED_TOKENS: usize = 1024;

/// The word of the list that was judged last, with its owner and what is kept of it.
#[derive(Debug, Drop)]
pub struct LastWord {
    owner: Option<Of>,
    tokens: Vec<Token>,
    judged: Judged,
}

impl LastWord {
    ghost use Rattle.std.specs.Prelude.{◌≡◌, ◌↔◌, ◌+◌, IfErr, IfOk, IfSome, IsTrue, length, map};
    ghost use Rattle.std.specs.Option.{option_map};
    ghost use Rattle.pv_missing.specs.PlainForms.{plain_of};
    ghost use Rattle.pv_missing.specs.Widths.{FitsVerdict};
    ghost use Rattle.pv_missing.specs.WordVerdicts.{IsVerdictByWord};
    ghost use Rattle.pv_model.specs.PlainForms.{plain_token};
    ghost use Rattle.pv_productive.specs.PlainForms.{dtd_of};
    ghost use Rattle.pv_reach.specs.declared.errors.ReachError.TheVariants.{TooWide as too_wide};
    ghost use Rattle.pv_verdicts.specs.LastJudgedWord.{IsLast};

    /// What is kept of a list's word.
    pub fn of(judge: &Judge<'_>, owner: Option<Of>, word: &[Token]) -> Result<LastWord, NoMemory>
        ensures last { IfOk result (IsLast (dtd_of judge.now)) }
        ensures word { IfOk result (λ last. (last.owner ≡ owner) ×
            (last.tokens.items ≡ word.now)) }
    {
        let mut tokens = Vec::new(judge.alloc());
        tokens.extend_from_slice(word)?;
        let judged = Judged::of(judge, owner, word)?;
        Ok(LastWord {
            owner,
            tokens,
            judged,
        })
    }

    /// Whether it is the word of a list with this owner.
    pub fn is_of(&self, owner: Option<Of>) -> bool
        ensures { IsTrue result ↔ (self.now.owner ≡ owner) }
    {
        self.owner == owner
    }

    /// The verdict of a list by its owner and its word, as `word_verdict` finds it. Where the owner
    /// is that of the last word, and the two differ in few tokens, it is found in steps of these.
    pub fn verdict<L: Ledger>(
        &self,
        judge: &Judge<'_>,
        owner: Option<Of>,
        word: &[Token],
        is_bare: bool,
        steps: &mut Steps<L>,
    ) -> Result<Verdict, ReachError>
        requires { IsLast (dtd_of judge.now) self.now }
        ensures verdict { IfOk result (λ verdict. IsVerdictByWord (dtd_of judge.now)
            (option_map plain_of owner) (map plain_token word.now) is_bare verdict) }
        ensures fits { IfOk result (λ _. FitsVerdict (dtd_of judge.now) (length word.now)) }
        ensures wide { IfErr result (λ e. e ≡ too_wide →
            ¬ FitsVerdict (dtd_of judge.now) (length word.now)) }
        ensures steps { steps.new ≡ steps.old + 1 }
    {
        if !self.is_of(owner) {
            return word_verdict(judge, owner, word, is_bare, steps);
        }
        let change = change_between(&self.tokens, word);
        if change.gone.len() > MAX_CHANGED_TOKENS || change.came > MAX_CHANGED_TOKENS {
            return word_verdict(judge, owner, word, is_bare, steps);
        }
        let (verdict, _turned) = self
            .judged
            .verdict_after(judge, owner, &change, is_bare, steps)?;
        Ok(verdict)
    }

    /// What is kept once this word is the last one, of a list with the same owner; nothing, where
    /// the two differ in many tokens.
    pub fn next(self, judge: &Judge<'_>, word: &[Token]) -> Result<Option<LastWord>, NoMemory>
        requires { IsLast (dtd_of judge.now) self }
        ensures last { IfOk result (λ next. IfSome next (IsLast (dtd_of judge.now))) }
        ensures word { IfOk result (λ next. IfSome next (λ last. (last.owner ≡ self.owner) ×
            (last.tokens.items ≡ word.now))) }
    {
        let LastWord {
            owner,
            mut tokens,
            mut judged,
        } = self;
        let change = change_between(&tokens, word);
        if change.gone.len() > MAX_CHANGED_TOKENS || change.came > MAX_CHANGED_TOKENS {
            return Ok(None);
        }
        let turned = judged.turned(judge, owner, &change)?;
        judged.make(turned);
        tokens.clear();
        tokens.extend_from_slice(word)?;
        Ok(Some(LastWord {
            owner,
            tokens,
            judged,
        }))
    }

    /// What is kept once `came` stand in the word in place of so many tokens from a place on;
    /// nothing where the word hasn't those, or where they are many. The word isn't compared.
    pub fn follow(
        self,
        judge: &Judge<'_>,
        from: usize,
        gone: usize,
        came: &[Token],
    ) -> Result<Option<LastWord>, NoMemory>
        requires { IsLast (dtd_of judge.now) self }
        ensures last { IfOk result (λ next. IfSome next (IsLast (dtd_of judge.now))) }
        ensures word { IfOk result (λ next. IfSome next (λ last. (last.owner ≡ self.owner) ×
            (last.tokens.items ≡ splice self.tokens.items from (from + gone) came.now))) }
    {
        let LastWord {
            owner,
            mut tokens,
            mut judged,
        } = self;
        let to = from.saturating_add(gone);
        if to > tokens.len() || gone > MAX_CHANGED_TOKENS || came.len() > MAX_CHANGED_TOKENS {
            return Ok(None);
        }
        let gone = exchange(judge.alloc(), &mut tokens, from, to, came)?;
        let change = WordChange {
            word: &tokens,
            from,
            gone: &gone,
            came: came.len(),
        };
        let turned = judged.turned(judge, owner, &change)?;
        judged.make(turned);
        Ok(Some(LastWord {
            owner,
            tokens,
            judged,
        }))
    }

    /// How many tokens the word has.
    pub fn count(&self) -> usize
        ensures { result ≡ length self.now.tokens.items }
    {
        self.tokens.len()
    }
}

// Puts others in place of the tokens from one place up to another, and gives these.
fn exchange(
    alloc: Global,
    tokens: &mut Vec<Token>,
    from: usize,
    to: usize,
    came: &[Token],
) -> Result<Vec<Token>, NoMemory>
    requires order { from ≤ to }
    requires within { to ≤ vec_len tokens.old }
    ensures items { OnOk result (tokens.new.items ≡ splice tokens.old.items from to came.now) }
    ensures gone { IfOk result (λ gone. gone.items ≡ between from to tokens.old.items) }
{
    let gone = Vec::from_slice(alloc, &tokens[from..to])?;
    tokens.extend_from_slice(came)?;
    move_last(tokens, from, came.len());
    take_out(tokens, from + came.len(), to + came.len());
    Ok(gone)
}

// Moves the last so many tokens before those from a place on.
fn move_last(tokens: &mut Vec<Token>, from: usize, count: usize)
    requires { from + count ≤ vec_len tokens.old }
    ensures items { tokens.new.items ≡ take from tokens.old.items ++
        (drop (vec_len tokens.old - from - count) (drop from tokens.old.items) ++
        take (vec_len tokens.old - from - count) (drop from tokens.old.items)) }
    ensures len { vec_len tokens.new ≡ vec_len tokens.old }
{
    tokens[from..].rotate_right(count);
}

// Takes the tokens from one place up to another out.
fn take_out(tokens: &mut Vec<Token>, from: usize, to: usize)
    requires order { from ≤ to }
    requires within { to ≤ vec_len tokens.old }
    ensures { tokens.new.items ≡ take from tokens.old.items ++ drop to tokens.old.items }
{
    for _ in tokens.drain(from..to) {}
}
