//! The columns of sites.

ghost use Rattle.std.specs.Prelude.{◌≡◌};
ghost use Rattle.pv_layout.specs.Columns.{column_at};

use pv_rules::Site;

/// The number of no column.
pub const NO_COLUMN: u32 = u32::MAX;

/// The column of each site: of an element of each name, of its content, of each part, and of the
/// members of a sequence from each part on.
#[derive(Debug, Drop)]
pub struct Sites {
    pub names: Vec<u32>,
    pub contents: Vec<u32>,
    pub parts: Vec<u32>,
    pub rests: Vec<u32>,
}

/// The column at a number, or that of no column where there is none.
#[inline(always)]
pub fn column_at(columns: &[u32], number: usize) -> u32
    ensures { result ≡ column_at columns.now number }
{
    match columns.get(number) {
        Some(column) => *column,
        None => NO_COLUMN,
    }
}

impl Sites {
    ghost use Rattle.std.specs.Prelude.{◌≡◌};
    ghost use Rattle.pv_rules.specs.PlainForms.{plain_site};
    ghost use Rattle.pv_layout.specs.Columns.{column_of};
    ghost use Rattle.pv_layout.specs.SiteForms.{plain_sites};

    /// The column of a site.
    #[inline(always)]
    pub fn column(&self, site: Site) -> u32
        ensures { result ≡ column_of (plain_sites self.now) (plain_site site) }
    {
        match site {
            Site::Name(id) => column_at(&self.names, id.0 as usize),
            Site::Content(id) => column_at(&self.contents, id.0 as usize),
            Site::Part(number) => column_at(&self.parts, number as usize),
            Site::Rest(number) => column_at(&self.rests, number as usize),
        }
    }
}

/// The columns of sites, owned or lent.
#[derive(Debug, Drop)]
pub enum SiteColumns<'a> {
    Own(Sites),
    Lent(&'a Sites),
}

impl SiteColumns<'_> {
    ghost use Rattle.std.specs.Prelude.{◌≡◌};
    ghost use Rattle.pv_rules.specs.PlainForms.{plain_site};
    ghost use Rattle.pv_layout.specs.Columns.{column_of};
    ghost use Rattle.pv_layout.specs.SiteForms.{plain_columns};

    /// The column of a site.
    #[inline(always)]
    pub fn column(&self, site: Site) -> u32
        ensures { result ≡ column_of (plain_columns self.now) (plain_site site) }
    {
        match self {
            SiteColumns::Own(sites) => sites.column(site),
            SiteColumns::Lent(sites) => sites.column(site),
        }
    }
}
