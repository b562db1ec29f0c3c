//! A grammar with its plan, by which lists are judged.

ghost use Rattle.std.specs.Prelude.{◌≡◌, ◌+◌, IfErr, IfOk, IfSome, length};
ghost use Rattle.std.specs.Option.{option_map};
ghost use Rattle.pv_cache.specs.ChangedWords.{IsFoundList};
ghost use Rattle.pv_dtd.specs.PlainForms.{plain_dtd};
ghost use Rattle.pv_missing.specs.PlainForms.{plain_of};
ghost use Rattle.pv_missing.specs.Widths.{FitsVerdict};
ghost use Rattle.pv_productive.specs.PlainForms.{dtd_of};
ghost use Rattle.pv_reach.specs.declared.errors.ReachError.TheVariants.{TooWide as too_wide};
ghost use Rattle.pv_verdicts.specs.LastJudgedWord.{IsLast};

use crate::words::ListWord;
use pv_chars::NoMemory;
use pv_dtd::Dtd;
use pv_missing::Of;
use pv_model::Token;
use pv_productive::Grammar;
use pv_reach::{Judge, Plan, ReachError, word_verdict};
use pv_steps::Steps;
use pv_tree::Verdict;
use pv_verdicts::LastWord;
use std::alloc::Global;
use std::marker::Model;
use std::sync::ledger::Ledger;

/// A word of so many tokens is judged by the last one, where that is remembered: it takes longer to
/// go over it than to find where it differs.
pub(crate) const REMEMBERED_TOKENS: usize = 256;

/// A grammar, and its rules laid out for all words, once for whoever judges by it. A long word that
/// was judged last is remembered, since the next one mostly differs from it by a token. Contracts
/// see the DTD.
#[derive(Drop)]
pub struct PlannedGrammar {
    grammar: Grammar,
    plan: Plan,
    last: Option<LastWord>,
}

/// A change of the word of the list that was changed last: how many tokens gave way, from a place
/// on, and how many came.
#[derive(Clone, Copy, Debug)]
pub(crate) struct Again {
    pub from: usize,
    pub gone: usize,
    pub came: usize,
}

// What is remembered once this word was judged. Without memory, nothing is.
fn next_word(
    judge: &Judge<'_>,
    last: Option<LastWord>,
    owner: Option<Of>,
    word: &[Token],
    again: Option<Again>,
) -> Option<LastWord>
    requires { IfSome last (IsLast (dtd_of judge.now)) }
    ensures { IfSome result (IsLast (dtd_of judge.now)) }
{
    if let Some(last) = last {
        if !last.is_of(owner) && again.is_none() {
            return Some(last);
        }
        if last.is_of(owner) {
            match behind(judge, last, word, again) {
                Ok(Some(next)) => return Some(next),
                Ok(None) => {}
                Err(NoMemory) => return None,
            }
        }
    }
    if again.is_some() {
        return LastWord::of(judge, owner, word).ok();
    }
    None
}

// What is remembered once several words are to be judged that differ from this one little. Without
// memory, nothing is.
fn asked_word(
    judge: &Judge<'_>,
    last: Option<LastWord>,
    owner: Option<Of>,
    word: &[Token],
) -> Option<LastWord>
    requires { IfSome last (IsLast (dtd_of judge.now)) }
    ensures { IfSome result (IsLast (dtd_of judge.now)) }
{
    if let Some(last) = last {
        if last.is_of(owner) {
            match last.next(judge, word) {
                Ok(Some(next)) => return Some(next),
                Ok(None) => {}
                Err(NoMemory) => return None,
            }
        }
    }
    LastWord::of(judge, owner, word).ok()
}

// Whether a word is as long as that of the list before the change was.
fn is_before(last: &LastWord, word: &[Token], again: Again) -> bool {
    let left = word.len().saturating_sub(again.came);
    last.count() == left.saturating_add(again.gone)
}

// What is kept after the last word, of a list with the same owner. Where that is the word of this
// very list before the change, as its length tells, the change is made in it, and no more is gone
// over.
fn behind(
    judge: &Judge<'_>,
    last: LastWord,
    word: &[Token],
    again: Option<Again>,
) -> Result<Option<LastWord>, NoMemory>
    requires { IsLast (dtd_of judge.now) last }
    ensures { IfOk result (λ next. IfSome next (IsLast (dtd_of judge.now))) }
{
    if let Some(again) = again {
        let to = again.from.saturating_add(again.came);
        if is_before(&last, word, again) {
            if let Some(came) = word.get(again.from..to) {
                return last.follow(judge, again.from, again.gone, came);
            }
        }
    }
    last.next(judge, word)
}

impl Model for PlannedGrammar {
    ghost use Rattle.pv_dtd.specs.Plain.{PlainDtd};
    ghost use Rattle.pv_cache.specs.Codes.{dtd_code};

    ghost Value = { PlainDtd };

    ghost coded = { dtd_code };

    ghost use Rattle.pv_cache.specs.GrammarPlans.{HasPlan, planned_dtd};

    ghost view = { planned_dtd };

    ghost invariant = { HasPlan };
}

impl PlannedGrammar {
    /// Lays out the rules of a grammar.
    pub fn of(alloc: Global, grammar: Grammar) -> Result<PlannedGrammar, NoMemory>
        ensures { IfOk result (λ planned. planned ≡ dtd_of grammar) }
    {
        let plan = Plan::of(alloc, &grammar)?;
        Ok(PlannedGrammar {
            grammar,
            plan,
            last: None,
        })
    }

    /// What verdicts are found by.
    pub fn judge(&self, alloc: Global) -> Judge<'_>
        ensures { dtd_of result ≡ self.now }
    {
        Judge::new(alloc, &self.grammar, &self.plan)
    }

    /// The grammar.
    pub fn grammar(&self) -> &Grammar
        ensures { dtd_of result.now ≡ self.now }
    {
        &self.grammar
    }

    pub(crate) fn dtd(&self) -> &Dtd
        ensures { plain_dtd result.now ≡ self.now }
    {
        self.grammar.dtd()
    }

    /// The verdict of a list by its owner and its word.
    pub(crate) fn verdict_of<L: Ledger>(
        &self,
        alloc: Global,
        owner: Option<Of>,
        word: &ListWord,
        steps: &mut Steps<L>,
    ) -> Result<Verdict, ReachError>
        ensures found { IfOk result (IsFoundList self.now (option_map plain_of owner) word.now) }
        ensures wide { IfErr result (λ e. e ≡ too_wide →
            ¬ FitsVerdict self.now (length word.now.tokens.items)) }
        ensures steps { steps.new ≡ steps.old + 1 }
    {
        let judge = self.judge(alloc);
        if word.tokens.len() >= REMEMBERED_TOKENS {
            if let Some(last) = &self.last {
                return last.verdict(&judge, owner, &word.tokens, word.is_bare, steps);
            }
        }
        word_verdict(&judge, owner, &word.tokens, word.is_bare, steps)
    }

    /// Remembers the word of a list that was changed, if it is long: once the same list was changed
    /// twice in turn, or where the last word's list had the same owner. That of a list that isn't
    /// long any more is forgotten.
    pub(crate) fn remember(
        &mut self,
        alloc: Global,
        owner: Option<Of>,
        word: &[Token],
        again: Option<Again>,
    )
        ensures { self.new ≡ self.old }
    {
        if word.len() < REMEMBERED_TOKENS {
            if self.was_long(owner, word, again) {
                drop(self.last.take());
            }
            return;
        }
        let last = self.last.take();
        let judge = Judge::new(alloc, &self.grammar, &self.plan);
        self.last = next_word(&judge, last, owner, word, again);
    }

    /// Remembers a long word, from which several others that are to be judged differ little.
    pub(crate) fn remember_asked(&mut self, alloc: Global, owner: Option<Of>, word: &[Token])
        ensures { self.new ≡ self.old }
    {
        if word.len() < REMEMBERED_TOKENS || self.is_likely_last(owner, word) {
            return;
        }
        let last = self.last.take();
        let judge = Judge::new(alloc, &self.grammar, &self.plan);
        self.last = asked_word(&judge, last, owner, word);
    }

    // Whether the last word has this owner and is as long as this one.
    fn is_likely_last(&self, owner: Option<Of>, word: &[Token]) -> bool {
        match &self.last {
            Some(last) => last.is_of(owner) && last.count() == word.len(),
            None => false,
        }
    }

    // Whether the last word is that of the changed list, before the change.
    fn was_long(&self, owner: Option<Of>, word: &[Token], again: Option<Again>) -> bool {
        match (&self.last, again) {
            (Some(last), Some(again)) => last.is_of(owner) && is_before(last, word, again),
            _ => false,
        }
    }
}
