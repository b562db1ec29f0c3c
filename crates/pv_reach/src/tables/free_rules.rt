//! The rules of free columns for the tokens of a word.

ghost use Rattle.std.specs.Prelude.{◌≡◌, ◌<◌, ◌∷◌, [], ℕ, Contains, IfOk, List, OnOk, Some};
ghost use Rattle.std.specs.Prelude.{length, true};
ghost use Rattle.pv_columns.specs.FreeSets.{IsFreeOver};
ghost use Rattle.pv_columns.specs.Tokens.{IsInRow};
ghost use Rattle.pv_columns.specs.declared.rules.ColumnRule.{ColumnRule as PlainRule};
ghost use Rattle.pv_reach.specs.AddedRules.{RulesGrow};
ghost use Rattle.pv_reach.specs.Columns.{Has};
ghost use Rattle.pv_reach.specs.Cuts.{AddsCut, AreCutRules, AreOwnSets, AreTokensOf, HasCut};
ghost use Rattle.pv_reach.specs.Merging.{column_head};

use crate::plan::Plan;
use crate::rules::adding::add;
use crate::tables::cut::Cut;
use crate::tables::found::Uncut;
use pv_columns::{ColumnRule, has};
use pv_model::Token;
use std::alloc::{AllocError, Global};

/// Whether a token is among these.
fn is_among(tokens: &[Token], token: Token) -> bool
    ensures { result ≡ true → Contains tokens.now token }
{
    for other in tokens {
        if *other == token {
            return true;
        }
    }
    false
}

/// The tokens of a word, each once.
pub fn tokens_of(alloc: Global, word: &[Token]) -> Result<Vec<Token>, AllocError>
    ensures { IfOk result (λ tokens. AreTokensOf word.now tokens.items) }
{
    let mut tokens = Vec::new(alloc);
    for token in word {
        if !is_among(&tokens, *token) {
            tokens.push(*token)?;
        }
    }
    Ok(tokens)
}

/// Adds the rule by which a free column reaches a token in front of itself, where its set has that.
fn add_token(
    alloc: Global,
    row: &[u64],
    token: Token,
    left: usize,
    few: &mut Vec<ColumnRule>,
) -> Result<(), AllocError>
    ensures grow { OnOk result (RulesGrow few.old.items few.new.items) }
    ensures adds { OnOk result ((rules : List PlainRule) (names : List ℕ) →
        IsFreeOver rules row.now (column_head names left) → left < length names →
        AddsCut rules names few.old.items few.new.items) }
    ensures has { OnOk result (IsInRow row.now token →
        Has few.new.items left (Some token) (left ∷ [])) }
{
    if !has(row, token) {
        return Ok(());
    }
    add(alloc, few, left, Some(token), &[left])?;
    Ok(())
}

/// Adds the rules of a free column: it reaches no tokens, and those of its set in front of itself.
fn add_free(
    alloc: Global,
    row: &[u64],
    tokens: &[Token],
    left: usize,
    few: &mut Vec<ColumnRule>,
) -> Result<(), AllocError>
    ensures adds { OnOk result ((rules : List PlainRule) (names : List ℕ) →
        IsFreeOver rules row.now (column_head names left) → left < length names →
        AddsCut rules names few.old.items few.new.items) }
    ensures has { OnOk result ((rules : List PlainRule) (names : List ℕ) →
        IsFreeOver rules row.now (column_head names left) →
        HasCut rules names few.new.items tokens.now left) }
{
    add(alloc, few, left, None, &[])?;
    for token in tokens {
        add_token(alloc, row, *token, left, few)?;
    }
    Ok(())
}

/// Adds the rules of the column that has a number, where it is free.
fn add_free_at(
    alloc: Global,
    plan: &Plan,
    names: &[usize],
    tokens: &[Token],
    left: usize,
    few: &mut Vec<ColumnRule>,
) -> Result<(), Uncut>
    requires sets { AreOwnSets plan.now.rules.items plan.now.width plan.now.free }
    ensures adds { OnOk result (AddsCut plan.now.rules.items names.now few.old.items
        few.new.items) }
    ensures has { OnOk result (HasCut plan.now.rules.items names.now few.new.items tokens.now
        left) }
{
    if left >= names.len() {
        return Err(Uncut::Unfound);
    }
    let column = names[left];
    if column >= plan.width {
        return Err(Uncut::Unfound);
    }
    let Some(row) = plan.free.set_at(column) else {
        return Err(Uncut::Unfound);
    };
    add_free(alloc, row, tokens, left, few)?;
    Ok(())
}

/// The rules of the free columns of a cut, for words of these tokens.
pub fn free_rules(
    alloc: Global,
    plan: &Plan,
    cut: &Cut,
    tokens: &[Token],
) -> Result<Vec<ColumnRule>, Uncut>
    requires sets { AreOwnSets plan.now.rules.items plan.now.width plan.now.free }
    ensures cut { IfOk result (λ few.
        AreCutRules plan.now.rules.items cut.now.names.items few.items) }
    ensures has { IfOk result (λ few. (l : ℕ) → Contains cut.now.frees.items l →
        HasCut plan.now.rules.items cut.now.names.items few.items tokens.now l) }
{
    let mut few = Vec::new(alloc);
    for left in &cut.frees {
        add_free_at(alloc, plan, &cut.names, tokens, *left, &mut few)?;
    }
    Ok(few)
}
