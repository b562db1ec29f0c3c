//! How far the declared names lead, all together.

ghost use Rattle.std.specs.Prelude.{◌<◌, ◌^◌, IfOk};
ghost use Rattle.pv_productive.specs.PlainForms.{dtd_of};
ghost use Rattle.pv_denial.specs.RowForms.{AreMost, IsMost};

use crate::barrier::Barrier;
use pv_model::NameId;
use pv_productive::Grammar;
use pv_rules::Site;
use std::alloc::{AllocError, Global};

/// One past the greatest value of the declared names at a place, or 0.
fn most_at(grammar: &Grammar, barrier: &Barrier<'_>, place: usize) -> u64
    ensures { IsMost (dtd_of grammar.now) barrier.now place result }
{
    let mut most = 0;
    for name in 0..grammar.dtd().count() {
        let past = barrier.past_at(Site::Name(NameId(name)), place);
        if most < past {
            most = past;
        }
    }
    most
}

/// One past the greatest value of the declared names, or 0, for each place of a word of so many
/// tokens. Any content goes on after one declared name or another, so that each such content asks
/// for this alone.
pub fn most_of_names(
    alloc: Global,
    grammar: &Grammar,
    barrier: &Barrier<'_>,
    tokens: usize,
) -> Result<Vec<u64>, AllocError>
    requires { tokens < 2 ^ 62 }
    ensures { IfOk result (λ most. AreMost (dtd_of grammar.now) barrier.now tokens most.items) }
{
    let mut all = Vec::with_capacity(alloc, tokens + 1)?;
    for place in 0..tokens + 1 {
        all.push(most_at(grammar, barrier, place))?;
    }
    Ok(all)
}
