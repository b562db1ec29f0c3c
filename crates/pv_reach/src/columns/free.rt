//! The columns that are free, with the sets of tokens that they take.

ghost use Rattle.std.specs.Prelude.{IfOk};
ghost use Rattle.pv_columns.specs.ColumnRules.{InRange};
ghost use Rattle.pv_columns.specs.Marks.{AreNullable, AreClosedMarks, ReadAlone};
ghost use Rattle.pv_reach.specs.Cuts.{AreOwnSets};
ghost use Rattle.pv_reach.specs.Merging.{AreHeadsBare};

use crate::columns::merging::{Merging, column_head};
use crate::graph::flags::set_flag;
use crate::graph::sweep::numbers_below;
use pv_columns::{ColumnRule, FreeSets, close_marks, is_marked};
use std::alloc::{AllocError, Global};

/// The columns of merged rules that reach over no tokens.
fn live_columns(
    alloc: Global,
    merged: &[ColumnRule],
    merging: &Merging,
    wider: usize,
) -> Result<Vec<bool>, AllocError>
    requires in_range { InRange wider merged.now }
    requires heads { AreHeadsBare merged.now merging.now.bare.items merging.now.heads.items }
    ensures bare { IfOk result (λ live. AreNullable merged.now live.items) }
    ensures closed { IfOk result (λ live. AreClosedMarks merged.now live.items) }
{
    let mut live = vec![in alloc; false; wider]?;
    for column in 0..merging.heads.len() {
        if is_marked(&merging.bare, column) {
            set_flag(&mut live, column_head(&merging.heads, column));
        }
    }
    close_marks(merged, &mut live);
    Ok(live)
}

/// The sets of the columns below `wider` that are free.
pub fn free_sets(
    alloc: Global,
    merged: &[ColumnRule],
    merging: &Merging,
    wider: usize,
) -> Result<FreeSets, AllocError>
    requires in_range { InRange wider merged.now }
    requires heads { AreHeadsBare merged.now merging.now.bare.items merging.now.heads.items }
    requires alone { ReadAlone merged.now }
    ensures { IfOk result (λ free. AreOwnSets merged.now wider free) }
{
    let live = live_columns(alloc, merged, merging, wider)?;
    let columns = numbers_below(alloc, wider)?;
    FreeSets::of(alloc, merged, &live, &columns, wider)
}
