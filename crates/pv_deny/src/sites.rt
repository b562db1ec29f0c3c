//! The sites of a grammar that derive something over a word.

ghost use Rattle.std.specs.Prelude.{◌≡◌, ◌<◌, ◌↔◌, IfOk, IsTrue, OnOk, suc};
ghost use Rattle.pv_rules.specs.PlainForms.{plain_site};
ghost use Rattle.pv_rules.specs.Sites.{HasSite, PlainSite};
ghost use Rattle.pv_productive.specs.PlainForms.{dtd_of};
ghost use Rattle.pv_tables.specs.Tables.{kind_rank, site_number};
ghost use Rattle.pv_deny.specs.ToldRows.{AreToldSites, IsTold, rank_of, site_by};

use pv_model::NameId;
use pv_productive::Grammar;
use pv_reach::Reaches;
use pv_rules::Site;
use pv_rules::laws::parts_law;
use pv_tables::laws::sites_law;
use std::alloc::{AllocError, Global};

/// The kinds of sites.
#[derive(Clone, Copy, Debug, PartialEq, Eq)]
enum Kind {
    Contents,
    Names,
    Parts,
    Rests,
}

/// The site of a kind and a number.
fn site_of(kind: Kind, number: u32) -> Site
    ensures { plain_site result ≡ site_by kind number }
{
    match kind {
        Kind::Contents => Site::Content(NameId(number)),
        Kind::Names => Site::Name(NameId(number)),
        Kind::Parts => Site::Part(number),
        Kind::Rests => Site::Rest(number),
    }
}

/// Whether the grammar has a site, and it derives something.
fn is_told(grammar: &Grammar, reaches: &Reaches, site: Site) -> bool
    ensures { IsTrue result ↔ IsTold (dtd_of grammar.now) reaches.now (plain_site site) }
{
    grammar.has_site(site) && reaches.at(site, 0).is_some()
}

/// Appends the sites of a kind that derive something. Their numbers are below `count`.
fn push_kind(
    grammar: &Grammar,
    reaches: &Reaches,
    kind: Kind,
    count: u32,
    sites: &mut Vec<Site>,
) -> Result<(), AllocError>
    requires all { (s : PlainSite) → HasSite (dtd_of grammar.now) s →
        kind_rank s ≡ rank_of kind → site_number s < count }
    requires before { AreToldSites (dtd_of grammar.now) reaches.now (rank_of kind) 0
        sites.old.items }
    ensures { OnOk result (AreToldSites (dtd_of grammar.now) reaches.now (suc (rank_of kind)) 0
        sites.new.items) }
{
    sites_law();
    for number in 0..count {
        let site = site_of(kind, number);
        if is_told(grammar, reaches, site) {
            sites.push(site)?;
        }
    }
    Ok(())
}

/// The sites that derive something, in their order.
pub fn told_sites(
    alloc: Global,
    grammar: &Grammar,
    reaches: &Reaches,
) -> Result<Vec<Site>, AllocError>
    ensures { IfOk result (λ sites. AreToldSites (dtd_of grammar.now) reaches.now 4 0 sites.items) }
{
    parts_law();
    let names = grammar.dtd().names();
    let parts = grammar.dtd().parts();
    let mut sites = Vec::new(alloc);
    push_kind(grammar, reaches, Kind::Contents, names, &mut sites)?;
    push_kind(grammar, reaches, Kind::Names, names, &mut sites)?;
    push_kind(grammar, reaches, Kind::Parts, parts, &mut sites)?;
    push_kind(grammar, reaches, Kind::Rests, parts, &mut sites)?;
    Ok(sites)
}
