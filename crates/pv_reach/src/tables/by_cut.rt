//! Whether a column reaches the end of a word, over the few columns that it needs.

ghost use Rattle.std.specs.Prelude.{◌≡◌, ◌↔◌, ◌∷◌, ◌<◌, ◌^◌, [], IfOk, IsTrue, length};
ghost use Rattle.pv_columns.specs.ColumnRules.{InRange, ReadThrough, TokensMayBeMissing};
ghost use Rattle.pv_reach.specs.Cuts.{AreCuts, AreOwnSets, AreRanges, IsCutOf};
ghost use Rattle.pv_reach.specs.Merging.{column_head};

use crate::plan::Plan;
use crate::tables::cut::{Cut, cut_of};
use crate::tables::found::{FoundColumns, Uncut};
use crate::tables::free_rules::{free_rules, tokens_of};
use crate::tables::table::reaches_end;
use pv_model::Token;
use std::alloc::{AllocError, Global};

/// Whether the column of a cut reaches the end of the word from its beginning.
fn reaches_by_cut(alloc: Global, plan: &Plan, cut: &Cut, word: &[Token]) -> Result<bool, Uncut>
    requires cut { IsCutOf plan.now.rules.items plan.now.width cut.now }
    requires sets { AreOwnSets plan.now.rules.items plan.now.width plan.now.free }
    requires short { length word.now < 2 ^ 26 }
    requires narrow { plan.now.width < 2 ^ 26 }
    requires missing { TokensMayBeMissing plan.now.rules.items word.now }
    ensures { IfOk result (λ b. IsTrue b ↔ ReadThrough plan.now.rules.items word.now
        (column_head cut.now.names.items cut.now.number ∷ []) 0 (length word.now)) }
{
    let tokens = tokens_of(alloc, word)?;
    let front = free_rules(alloc, plan, cut, &tokens)?;
    let width = cut.names.len();
    let reaches = reaches_end(alloc, &front, &cut.rules, word, width, cut.number)?;
    Ok(reaches)
}

/// Whether a column of a plan reaches the end of the word from its beginning, by its cut, which is
/// made where none is kept.
fn reaches_cut(alloc: Global, plan: &Plan, word: &[Token], column: usize) -> Result<bool, Uncut>
    requires cuts { AreCuts plan.now.rules.items plan.now.width plan.now.cuts }
    requires sets { AreOwnSets plan.now.rules.items plan.now.width plan.now.free }
    requires ranges { AreRanges plan.now.rules.items plan.now.ranges }
    requires short { length word.now < 2 ^ 26 }
    requires narrow { plan.now.width < 2 ^ 26 }
    requires missing { TokensMayBeMissing plan.now.rules.items word.now }
    ensures { IfOk result (λ b. IsTrue b ↔
        ReadThrough plan.now.rules.items word.now (column ∷ []) 0 (length word.now)) }
{
    if let Some(cut) = plan.cuts.of_column(column) {
        return reaches_by_cut(alloc, plan, cut, word);
    }
    let mut found = FoundColumns::new(alloc, plan.width)?;
    let cut = cut_of(alloc, plan, &mut found, column)?;
    reaches_by_cut(alloc, plan, &cut, word)
}

/// Whether a column of a plan reaches the end of the word from its beginning.
pub fn column_reaches(
    alloc: Global,
    plan: &Plan,
    word: &[Token],
    column: usize,
) -> Result<bool, AllocError>
    requires cuts { AreCuts plan.now.rules.items plan.now.width plan.now.cuts }
    requires sets { AreOwnSets plan.now.rules.items plan.now.width plan.now.free }
    requires ranges { AreRanges plan.now.rules.items plan.now.ranges }
    requires short { length word.now < 2 ^ 26 }
    requires narrow { plan.now.width < 2 ^ 26 }
    requires column { column < plan.now.width }
    requires in_range { InRange plan.now.width plan.now.rules.items }
    requires missing { TokensMayBeMissing plan.now.rules.items word.now }
    ensures { IfOk result (λ b. IsTrue b ↔
        ReadThrough plan.now.rules.items word.now (column ∷ []) 0 (length word.now)) }
{
    match reaches_cut(alloc, plan, word, column) {
        Ok(reaches) => Ok(reaches),
        Err(Uncut::Unfound) => reaches_end(alloc, &[], &plan.rules, word, plan.width, column),
        Err(Uncut::NoMemory(error)) => Err(error),
    }
}
