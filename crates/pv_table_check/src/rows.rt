//! The values of a site, laid out by the places where its spans begin and end, so that none is
//! looked for.

ghost use Rattle.std.specs.Prelude.{◌≡◌, ◌<◌, ◌≤◌, ◌-◌, ◌^◌, IfOk};
ghost use Rattle.std.specs.List.{AllPairs};
ghost use Rattle.pv_rules.specs.PlainForms.{plain_site};
ghost use Rattle.pv_tables.specs.Tables.{Precedes};
ghost use Rattle.pv_table_check.specs.Rows.{AreValueRows, AreValuesFrom};

use crate::lookup::{place_of, row_of, value_near};
use pv_chars::NoMemory;
use pv_rules::Site;
use pv_tables::Entry;
use pv_tables::laws::listed_or_not_law;
use std::alloc::Global;

/// The values over the spans that begin at one place, by where they end.
#[derive(Drop)]
pub struct Row {
    pub values: Vec<u32>,
}

// The values of a site over the spans that begin at a place.
fn row_from(
    alloc: Global,
    entries: &[Entry],
    site: Site,
    from: u32,
    most: u32,
) -> Result<Row, NoMemory>
    requires ascend { AllPairs Precedes entries.now }
    requires place { from ≤ most }
    requires few { most < 2 ^ 32 - 1 }
    ensures { IfOk result (λ row. AreValuesFrom entries.now (plain_site site) most from
        row.values.items) }
{
    listed_or_not_law();
    let found = row_of(entries, site, from);
    let mut values = Vec::with_capacity(alloc, (most - from) as usize + 1)?;
    for to in from..most + 1 {
        values.push(value_near(found, place_of(found, to), site, from, to))?;
    }
    Ok(Row { values })
}

/// The values of a site over all spans of so many tokens.
pub fn rows_of(
    alloc: Global,
    entries: &[Entry],
    site: Site,
    most: u32,
) -> Result<Vec<Row>, NoMemory>
    requires ascend { AllPairs Precedes entries.now }
    requires few { most < 2 ^ 32 - 1 }
    ensures { IfOk result (λ rows. AreValueRows entries.now (plain_site site) most rows.items) }
{
    let mut rows = Vec::new(alloc);
    for from in 0..most + 1 {
        rows.push(row_from(alloc, entries, site, from, most)?)?;
    }
    Ok(rows)
}
