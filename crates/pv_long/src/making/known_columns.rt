//! What is known of a grammar's columns for all lists.

ghost use Rattle.std.specs.Prelude.{◌≡◌, IfOk};

use crate::making::empties::empty_costs;
use pv_chars::NoMemory;
use pv_layout::ColumnLayout;
use std::alloc::Global;

/// A grammar with its columns, and what is known of these for all lists.
#[derive(Drop)]
pub struct KnownColumns<'a> {
    pub layout: &'a ColumnLayout<'a>,
    /// What each column costs over no tokens.
    pub empty: Vec<u32>,
}

/// What is known of a grammar's columns.
pub fn known_columns<'a>(
    alloc: Global,
    layout: &'a ColumnLayout<'a>,
) -> Result<KnownColumns<'a>, NoMemory>
    ensures { IfOk result (λ known. known.layout.now ≡ layout.now) }
{
    let empty = empty_costs(alloc, layout.forms())?;
    Ok(KnownColumns { layout, empty })
}
