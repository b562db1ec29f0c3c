//! The rows of furthest places.

ghost use Rattle.std.specs.Prelude.{◌≡◌, ◌≤◌, ◌<◌, ◌*◌, ◌↔◌, ℕ, IfOk, IsSome, IsTrue, Some};
ghost use Rattle.std.specs.Prelude.{length, slice_get, suc};
ghost use Rattle.pv_rules.specs.PlainForms.{plain_site};
ghost use Rattle.pv_rules.specs.declared.sites.Site.{Site as PlainSiteOf};
ghost use Rattle.pv_reach.specs.FurthestEnds.{end_told};
ghost use Rattle.pv_denial.specs.Rows.{most_values};
ghost use Rattle.pv_deny.specs.ToldRows.{AreToldRows, IsToldRow};

use pv_chars::List;
use pv_denial::{MAX_VALUES, Row};
use pv_reach::Reaches;
use pv_rules::Site;
use std::alloc::{AllocError, Global};

/// Whether a row for each of so many sites, with a value for each place of so many tokens, has no
/// more values than there may be.
pub fn are_few(sites: u64, tokens: u64) -> bool
    ensures { IsTrue result ↔ (sites * suc tokens ≤ most_values) }
{
    u128::from(sites) * (u128::from(tokens) + 1) <= u128::from(MAX_VALUES)
}

/// The row of a site, for a word of so many tokens.
fn row_of(alloc: Global, reaches: &Reaches, site: Site, tokens: usize) -> Result<Row, AllocError>
    requires few { tokens < most_values }
    requires told { (i : ℕ) → i ≤ tokens → IsSome (end_told reaches.now (plain_site site) i) }
    ensures { IfOk result (IsToldRow reaches.now tokens site) }
{
    let mut values = Vec::with_capacity(alloc, tokens + 1)?;
    for from in 0..tokens + 1 {
        let Some(value) = reaches.at(site, from as u32) else {
            unreachable!()
        };
        values.push(value)?;
    }
    Ok(Row {
        site,
        values: List::of(values),
    })
}

/// The rows of sites, for a word of so many tokens.
pub fn rows_of(
    alloc: Global,
    reaches: &Reaches,
    sites: &[Site],
    tokens: usize,
) -> Result<Vec<Row>, AllocError>
    requires few { length sites.now * suc tokens ≤ most_values }
    requires told { (k i : ℕ) (s : PlainSiteOf) → slice_get sites.now k ≡ Some s → i ≤ tokens →
        IsSome (end_told reaches.now (plain_site s) i) }
    ensures { IfOk result (λ rows. AreToldRows reaches.now tokens sites.now rows.items) }
{
    let mut rows = Vec::with_capacity(alloc, sites.len())?;
    for site in sites {
        rows.push(row_of(alloc, reaches, *site, tokens)?)?;
    }
    Ok(rows)
}
