//! The order of the entries of a table.

ghost use Rattle.std.specs.Prelude.{◌≡◌, ◌<◌, ◌⊎◌, ◌↔◌, IsTrue};
ghost use Rattle.pv_rules.specs.PlainForms.{plain_site};
ghost use Rattle.pv_tables.specs.Tables.{Precedes, kind_rank, site_number};

use crate::tables::Entry;
use pv_rules::Site;

// The place of a site's kind in the order of kinds.
fn kind_rank(site: Site) -> u32
    ensures { result ≡ kind_rank (plain_site site) }
{
    match site {
        Site::Content(_) => 0,
        Site::Name(_) => 1,
        Site::Part(_) => 2,
        Site::Rest(_) => 3,
    }
}

/// The number of a site's name or part.
pub fn site_number(site: Site) -> u32
    ensures { result ≡ site_number (plain_site site) }
{
    match site {
        Site::Content(id) | Site::Name(id) => id.0,
        Site::Part(number) | Site::Rest(number) => number,
    }
}

/// Whether two sites are the same.
pub fn is_same_site(one: Site, other: Site) -> bool
    ensures { IsTrue result ↔ (plain_site one ≡ plain_site other) }
{
    kind_rank(one) == kind_rank(other) && site_number(one) == site_number(other)
}

// Whether a number is less than another, or equal to it where what follows is in order.
fn comes_before(one: u32, other: u32, rest: bool) -> bool
    ensures { IsTrue result ↔ ((one < other) ⊎ ((one ≡ other) × IsTrue rest)) }
{
    one < other || one == other && rest
}

/// Whether an entry stands before another in a table.
pub fn precedes(one: &Entry, other: &Entry) -> bool
    ensures { IsTrue result ↔ Precedes one.now other.now }
{
    let spans = comes_before(one.from, other.from, one.to < other.to);
    let numbers = comes_before(site_number(one.site), site_number(other.site), spans);
    comes_before(kind_rank(one.site), kind_rank(other.site), numbers)
}
