//! Rows, with the place of each.

ghost use Rattle.std.specs.Prelude.{◌≡◌, slice_get};
ghost use Rattle.pv_denial.specs.RowForms.{one_past};

use crate::denials::Row;
use crate::index::Index;
use pv_rules::Site;
use std::marker::Model;

/// Rows of which no two have the same site, each to be found by its site. Contracts see the rows.
#[derive(Drop)]
pub struct Barrier<'a> {
    rows: &'a [Row],
    index: Index,
}

impl<'a> Model for Barrier<'a> {
    ghost use Rattle.std.specs.Prelude.{List, length};
    ghost use Rattle.pv_denial.specs.declared.denials.Row.{Row as PlainRow};
    ghost use Rattle.pv_denial.specs.Indexes.{IsIndex};
    ghost use Rattle.pv_denial.specs.Rows.{AreOfOtherSites};

    ghost Value = { List PlainRow };

    ghost view = { λ b. b.rows.now };

    ghost invariant = { λ b. AreOfOtherSites b.rows.now ×
        IsIndex b.rows.now (length b.rows.now) b.index };
}

impl<'a> Barrier<'a> {
    ghost use Rattle.std.specs.Prelude.{◌≡◌, length};
    ghost use Rattle.pv_rules.specs.PlainForms.{plain_site};
    ghost use Rattle.pv_denial.specs.Indexes.{IsIndex};
    ghost use Rattle.pv_denial.specs.RowForms.{past_at};
    ghost use Rattle.pv_denial.specs.Rows.{AreOfOtherSites};

    /// The barrier of rows that an index has.
    pub fn of(rows: &'a [Row], index: Index) -> Barrier<'a>
        requires once { AreOfOtherSites rows.now }
        requires index { IsIndex rows.now (length rows.now) index }
        ensures { result ≡ rows.now }
    {
        Barrier { rows, index }
    }

    /// One past the value of a site at a place, or 0.
    pub fn past_at(&self, site: Site, place: usize) -> u64
        ensures { result ≡ past_at self.now (plain_site site) place }
    {
        let number = self.index.get(site);
        if number == 0 {
            return 0;
        }
        value_past(&self.rows[number - 1], place)
    }
}

/// One past the value of a row at a place, or 0.
fn value_past(row: &Row, place: usize) -> u64
    ensures { result ≡ one_past (slice_get row.now.values place) }
{
    match row.values.as_slice().get(place) {
        None => 0,
        Some(value) => u64::from(*value) + 1,
    }
}
