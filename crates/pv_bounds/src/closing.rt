//! Whether fronts are closed under the rules of columns.

ghost use Rattle.std.specs.Prelude.{◌≡◌, ◌≤◌, ◌<◌, ℕ, IfOk, IsTrue, length, map};
ghost use Rattle.pv_model.specs.PlainForms.{plain_token};
ghost use Rattle.pv_productive.specs.PlainForms.{dtd_of};
ghost use Rattle.pv_layout.specs.Columns.{no_column};
ghost use Rattle.pv_layout.specs.FormForms.{plain_all};
ghost use Rattle.pv_layout.specs.Forms.{form_at};
ghost use Rattle.pv_bounds.specs.Bounds.{IsBelowSites};
ghost use Rattle.pv_bounds.specs.Fronts.{cost_from, empty_cost, front_value};
ghost use Rattle.pv_bounds.specs.HoldingForms.{ColumnHolds, FormCutsHold};

use crate::claim::Claim;
use crate::columns::places_hold;
use crate::cuts::form_cuts_hold;
use crate::empties::empties_hold;
use crate::fronts::Fronts;
use pv_chars::NoMemory;
use pv_layout::laws::columns_derive_law;
use pv_layout::{ColumnLayout, Form};
use pv_model::Token;
use std::alloc::Global;

// Whether no column costs more than its rules lead to that cut a span.
fn cuts_hold(alloc: Global, claim: &Claim<'_>, forms: &[Form]) -> Result<bool, NoMemory>
    requires { length forms.now ≤ no_column }
    ensures { IfOk result (λ hold. IsTrue hold → (c i : ℕ) → c < length forms.now →
        i < claim.now.tokens → FormCutsHold (map plain_token claim.now.word.now)
        (empty_cost claim.now.fronts.now.empty.items) (cost_from claim.now.fronts.now)
        c i (form_at (plain_all forms.now) c)) }
{
    for number in 0..forms.len() {
        if !form_cuts_hold(alloc, claim, &forms[number], number as u32)? {
            return Ok(false);
        }
    }
    Ok(true)
}

// Whether no column costs more than its rules lead to. Those that cut no span are looked at place
// by place, since the fronts of one place lie together.
fn columns_hold(alloc: Global, claim: &Claim<'_>, forms: &[Form]) -> Result<bool, NoMemory>
    requires { length forms.now ≤ no_column }
    ensures { IfOk result (λ hold. IsTrue hold → (c i : ℕ) → c < length forms.now →
        i < claim.now.tokens → ColumnHolds (map plain_token claim.now.word.now)
        (empty_cost claim.now.fronts.now.empty.items) (cost_from claim.now.fronts.now)
        c i (form_at (plain_all forms.now) c) ×
        FormCutsHold (map plain_token claim.now.word.now)
        (empty_cost claim.now.fronts.now.empty.items) (cost_from claim.now.fronts.now)
        c i (form_at (plain_all forms.now) c)) }
{
    if !places_hold(claim, forms) {
        return Ok(false);
    }
    let hold = cuts_hold(alloc, claim, forms)?;
    Ok(hold)
}

/// Whether fronts hold for a word: where they do, no site derives anything over a span of the word
/// at less than they tell.
///
/// They hold where no rule of a column leads to less than is read off them. Whoever makes them has
/// to see to that; nothing else is asked of them.
pub fn are_closed(
    alloc: Global,
    layout: &ColumnLayout<'_>,
    word: &[Token],
    fronts: &Fronts,
) -> Result<bool, NoMemory>
    ensures { IfOk result (λ closed. IsTrue closed → IsBelowSites (dtd_of layout.now.grammar.now)
        (map plain_token word.now) (front_value layout.now fronts.now)) }
{
    columns_derive_law();
    if word.len() > u32::MAX as usize {
        return Ok(false);
    }
    let claim = Claim {
        word,
        tokens: word.len() as u32,
        fronts,
    };
    let forms = layout.forms();
    if !empties_hold(fronts, forms) {
        return Ok(false);
    }
    let hold = columns_hold(alloc, &claim, forms)?;
    Ok(hold)
}
