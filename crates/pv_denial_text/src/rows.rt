//! The rows of a denial, read up to its end.

ghost use Rattle.std.specs.Prelude.{◌≡◌, ◌≤◌, ◌<◌, ◌+◌, ◌^◌, ◌⊎◌, ◌↔◌, ℕ, List, length, IsTrue};
ghost use Rattle.std.specs.Prelude.{IfOk, IfErr, IfSome, MatchOption};
ghost use Rattle.pv_rules.specs.PlainForms.{plain_site};
ghost use Rattle.pv_rules.specs.declared.sites.Site.{Site as PlainSiteOf};
ghost use Rattle.pv_tables.specs.Tables.{kind_rank};
ghost use Rattle.pv_denial.specs.Rows.{IsSiteBefore};
ghost use Rattle.pv_denial.specs.declared.denials.Row.{Row as PlainRow};
ghost use Rattle.pv_denial_text.specs.Fronts.{Begins, BeginsNone, IsRowText, IsSiteBehind};
ghost use Rattle.pv_denial_text.specs.Lines.{row_line};
ghost use Rattle.pv_denial_text.specs.Meaning.{MAX_DENIAL_BYTES as MAX_BYTES};
ghost use Rattle.pv_denial_text.specs.Steps.{EndsWithRows, Follows, RefusesRows, StandsNoRowBehind};
ghost use Rattle.pv_denial_text.specs.Steps.{StandsRow};

use crate::errors::TableError;
use crate::lines::end_at;
use crate::values::values_of;
use pv_cert::{letter_at, site_of};
use pv_chars::delimiters::up_to_byte;
use pv_chars::{List, NoMemory};
use pv_denial::{MAX_VALUES, Row};
use pv_rules::Site;
use pv_tables::site_number;
use pv_words::next_number;
use std::alloc::Global;

// The place of a site's kind in the order of kinds.
fn kind_rank(site: Site) -> u32
    ensures { result ≡ kind_rank (plain_site site) }
{
    match site {
        Site::Content(_) => 0,
        Site::Name(_) => 1,
        Site::Part(_) => 2,
        Site::Rest(_) => 3,
    }
}

// Whether a site stands before another.
fn is_before(one: Site, other: Site) -> bool
    ensures { IsTrue result ↔ IsSiteBefore (plain_site one) (plain_site other) }
{
    let (first, second) = (kind_rank(one), kind_rank(other));
    first < second || first == second && site_number(one) < site_number(other)
}

// Whether a row of a site may stand after the last one, or at the head of the rows.
fn follows(last: Option<Site>, next: Site) -> bool
    ensures { IsTrue result ↔ Follows last next }
{
    match last {
        Some(before) => is_before(before, next),
        None => true,
    }
}

// The site that a line begins with, and what stands after its number.
fn site_in(line: &[u8]) -> Option<(Site, &[u8])>
    ensures { MatchOption result
        ((s : PlainSiteOf) (rest : List ℕ) → IsSiteBehind line.now s rest → ⊥)
        (λ r. IsSiteBehind line.now r.0 r.1.now) }
{
    let (letter, behind_kind) = letter_at(line)?;
    let (number, rest) = next_number(behind_kind)?;
    let site = site_of(letter, number)?;
    Some((site, rest))
}

// The row that a line is, without its LF.
fn row_in(alloc: Global, line: &[u8]) -> Result<Option<Row>, NoMemory>
    ensures { IfOk result (λ found. MatchOption found ((r : PlainRow) → IsRowText line.now r → ⊥)
        (IsRowText line.now)) }
{
    let Some((site, behind)) = site_in(line) else {
        return Ok(None);
    };
    match values_of(alloc, behind)? {
        Some(values) => Ok(Some(Row {
            site,
            values: List::of(values),
        })),
        None => Ok(None),
    }
}

// The row at the front, and what stands after it.
fn row_at(alloc: Global, bytes: &[u8]) -> Result<Option<(Row, &[u8])>, NoMemory>
    ensures row { IfOk result (λ found. MatchOption found (BeginsNone row_line bytes.now)
        (λ r. Begins bytes.now (row_line r.0) r.1.now)) }
    ensures within { IfOk result (λ found. IfSome found (λ r. length r.1.now < length bytes.now)) }
{
    let Some((line, rest)) = up_to_byte(b'\n', bytes) else {
        return Ok(None);
    };
    match row_in(alloc, line)? {
        Some(row) => Ok(Some((row, rest))),
        None => Ok(None),
    }
}

// The row at the front that may stand after the last site, and what stands after it.
fn next_row(
    alloc: Global,
    last: Option<Site>,
    bytes: &[u8],
) -> Result<Option<(Row, &[u8])>, NoMemory>
    ensures row { IfOk result (λ found. MatchOption found (StandsNoRowBehind last bytes.now)
        (λ r. StandsRow last bytes.now r.0 r.1.now)) }
    ensures within { IfOk result (λ found. IfSome found (λ r. length r.1.now < length bytes.now)) }
{
    let Some((next, rest)) = row_at(alloc, bytes)? else {
        return Ok(None);
    };
    if !follows(last, next.site) {
        return Ok(None);
    }
    Ok(Some((next, rest)))
}

/// The rows after the cause of a denial, up to its end.
pub fn read_rows(alloc: Global, bytes: &[u8]) -> Result<Vec<Row>, TableError>
    requires { length bytes.now ≤ MAX_BYTES }
    ensures read { IfOk result (λ rows. EndsWithRows bytes.now rows.items) }
    ensures refused { IfErr result (λ error. RefusesRows bytes.now error) }
{
    let mut rows = Vec::new(alloc);
    let mut room = MAX_VALUES as usize;
    let mut last = None;
    let mut rest = bytes;
    'rows: while let Some((row, after)) = next_row(alloc, last, rest)? {
        let count = row.values.as_slice().len();
        if room < count {
            return Err(TableError::Limit);
        }
        room -= count;
        last = Some(row.site);
        rest = after;
        rows.push(row)?;
    }
    match end_at(rest) {
        Some([]) => Ok(rows),
        Some(_) => Err(TableError::Syntax(4 + rows.len() as u64)),
        None => Err(TableError::Syntax(3 + rows.len() as u64)),
    }
}
