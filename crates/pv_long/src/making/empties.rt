//! What columns cost over no tokens.

use pv_chars::NoMemory;
use pv_layout::Form;
use pv_rules::HEAVIEST;
use std::alloc::Global;

/// The cost of a column, or the largest one where there is none.
pub fn cost_at(costs: &[u32], column: u32) -> u32 {
    match costs.get(column as usize) {
        Some(cost) => *cost,
        None => HEAVIEST,
    }
}

/// The sum of two costs, cut.
pub fn sum_of(cost: u32, other: u32) -> u32 {
    u32::saturating_add(cost, other).min(HEAVIEST)
}

/// The column with the least cost among these, or the last one where all have the largest.
pub fn cheapest_of(members: &[u32], costs: &[u32]) -> Option<u32> {
    let mut found = None;
    let mut least = HEAVIEST;
    for member in members {
        let cost = cost_at(costs, *member);
        if cost <= least {
            least = cost;
            found = Some(*member);
        }
    }
    found
}

// What a column costs, by what stands in it and by what others cost.
fn cost_of(form: &Form, costs: &[u32]) -> u32 {
    match form {
        Form::Never => HEAVIEST,
        Form::Element(_, inner) => sum_of(1, cost_at(costs, *inner)),
        Form::Nothing => 0,
        Form::OneOf(members) => match cheapest_of(members.as_slice(), costs) {
            Some(member) => cost_at(costs, member),
            None => HEAVIEST,
        },
        Form::Opt(_) => 0,
        Form::Star(_, _) => 0,
        Form::Plus(inner) => cost_at(costs, *inner),
        Form::Then(first, rest) => sum_of(cost_at(costs, *first), cost_at(costs, *rest)),
    }
}

// Lowers the costs of all columns once, and tells whether some cost fell.
fn lower(forms: &[Form], costs: &mut Vec<u32>) -> bool {
    let mut fell = false;
    for (column, form) in forms.iter().enumerate() {
        let cost = cost_of(form, costs.as_slice());
        if let Some(old) = costs.get_mut(column) {
            if cost < *old {
                *old = cost;
                fell = true;
            }
        }
    }
    fell
}

/// What each column costs over no tokens.
pub fn empty_costs(alloc: Global, forms: &[Form]) -> Result<Vec<u32>, NoMemory> {
    let mut costs = vec![in alloc; HEAVIEST; forms.len()]?;
    for _round in 0..forms.len() {
        if !lower(forms, &mut costs) {
            break;
        }
    }
    Ok(costs)
}
