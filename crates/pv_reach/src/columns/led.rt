//! The columns that have a further column for what may stand after them.

ghost use Rattle.std.specs.Prelude.{◌≡◌, ◌<◌, ◌≤◌, All, IfOk, length};

use crate::columns::merging::{Merging, column_head, own_place};
use crate::graph::flags::set_flag;
use pv_columns::{ColumnRule, is_marked, is_open};
use std::alloc::{AllocError, Global};

/// For what stands after its own place in a rule, flags the rule's column among those that stand
/// after themselves, or among the others.
fn set_behind(heads: &[usize], rule: &ColumnRule, own: &mut Vec<bool>, others: &mut Vec<bool>) {
    let head = column_head(heads, rule.left);
    let Some(place) = own_place(heads, rule) else {
        return;
    };
    for (i, column) in rule.columns.iter().enumerate() {
        if i > place && column_head(heads, *column) == head {
            set_flag(own, head);
        } else if i > place {
            set_flag(others, head);
        }
    }
}

/// The numbers whose flags are set in the second list alone.
fn set_alone(
    alloc: Global,
    own: &[bool],
    others: &[bool],
    width: usize,
) -> Result<Vec<usize>, AllocError>
    ensures below { IfOk result (λ led. All (λ a. a < width) led.items) }
    ensures few { IfOk result (λ led. length led.items ≤ width) }
{
    let mut led = Vec::new(alloc);
    for column in 0..width {
        if is_marked(others, column) && !is_marked(own, column) {
            led.push(column)?;
        }
    }
    Ok(led)
}

/// The columns that others may stand after, each standing for its component. Where it may stand
/// after itself it has no use for a further column: it goes as far by itself.
fn led_columns(
    alloc: Global,
    rules: &[ColumnRule],
    bare: &[bool],
    heads: &[usize],
) -> Result<Vec<usize>, AllocError>
    ensures below { IfOk result (λ led. All (λ a. a < length heads.now) led.items) }
    ensures few { IfOk result (λ led. length led.items ≤ length heads.now) }
{
    let mut own = vec![in alloc; false; heads.len()]?;
    let mut others = vec![in alloc; false; heads.len()]?;
    for rule in rules {
        if is_open(rule, bare) {
            set_behind(heads, rule, &mut own, &mut others);
        }
    }
    set_alone(alloc, &own, &others, heads.len())
}

/// For each number of the list its place there.
fn places_of(alloc: Global, led: &[usize], width: usize) -> Result<Vec<usize>, AllocError> {
    let mut places = vec![in alloc; 0usize; width]?;
    for (place, column) in led.iter().enumerate() {
        if *column < places.len() {
            places[*column] = place;
        }
    }
    Ok(places)
}

/// What rules are merged by, where these columns reach over no tokens, and these stand for others.
pub fn merging_of(
    alloc: Global,
    rules: &[ColumnRule],
    bare: Vec<bool>,
    heads: Vec<usize>,
) -> Result<Merging, AllocError>
    ensures same { IfOk result (λ m. (m.bare.items ≡ bare.items) × (m.heads.items ≡ heads.items)) }
    ensures below { IfOk result (λ m. All (λ a. a < length heads.items) m.led.items) }
    ensures few { IfOk result (λ m. length m.led.items ≤ length heads.items) }
{
    let led = led_columns(alloc, rules, &bare, &heads)?;
    let places = places_of(alloc, &led, heads.len())?;
    Ok(Merging {
        bare,
        heads,
        led,
        places,
    })
}
