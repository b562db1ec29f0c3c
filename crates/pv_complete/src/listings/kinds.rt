//! The kinds of sites, and the sites of each by number.

ghost use Rattle.std.specs.Prelude.{◌≡◌, ◌<◌, IfSome, IfNone};
ghost use Rattle.pv_rules.specs.PlainForms.{plain_site};
ghost use Rattle.pv_rules.specs.Sites.{HasSite, PlainSite};
ghost use Rattle.pv_productive.specs.PlainForms.{dtd_of};
ghost use Rattle.pv_complete.specs.Kinds.{count_of, rank_of_kind};
ghost use Rattle.pv_tables.specs.Tables.{kind_rank, site_number};

use pv_model::NameId;
use pv_productive::Grammar;
use pv_rules::{Membership, Site};

/// What sites are of, in the order of entries.
#[derive(Clone, Copy, Debug, PartialEq, Eq)]
pub enum SiteKind {
    Content,
    Name,
    Part,
    Rest,
}

/// How many numbers a kind has.
pub fn count_of(grammar: &Grammar, kind: SiteKind) -> u32
    ensures { result ≡ count_of (dtd_of grammar.now) kind }
{
    match kind {
        SiteKind::Content | SiteKind::Name => grammar.dtd().names(),
        SiteKind::Part | SiteKind::Rest => grammar.dtd().parts(),
    }
}

/// The members of a sequence from the one of a number on.
fn rest_of(grammar: &Grammar, number: u32) -> Option<Site>
    ensures is { IfSome result (λ site. (kind_rank (plain_site site) ≡ 3) ×
        (site_number (plain_site site) ≡ number) ×
        HasSite (dtd_of grammar.now) (plain_site site)) }
    ensures none { IfNone result ((s : PlainSite) → kind_rank s ≡ 3 → site_number s ≡ number →
        HasSite (dtd_of grammar.now) s → ⊥) }
{
    let Some(part) = grammar.part_of(number) else {
        return None;
    };
    match part.membership {
        Membership::Outside => None,
        Membership::Followed => Some(Site::Rest(number)),
        Membership::Last => Some(Site::Rest(number)),
    }
}

/// The site of a kind that has a number, where there is one.
pub fn site_at(grammar: &Grammar, kind: SiteKind, number: u32) -> Option<Site>
    requires { number < count_of (dtd_of grammar.now) kind }
    ensures is { IfSome result (λ site. (kind_rank (plain_site site) ≡ rank_of_kind kind) ×
        (site_number (plain_site site) ≡ number) ×
        HasSite (dtd_of grammar.now) (plain_site site)) }
    ensures none { IfNone result ((s : PlainSite) → kind_rank s ≡ rank_of_kind kind →
        site_number s ≡ number → HasSite (dtd_of grammar.now) s → ⊥) }
{
    match kind {
        SiteKind::Content => Some(Site::Content(NameId(number))),
        SiteKind::Name => Some(Site::Name(NameId(number))),
        SiteKind::Part => Some(Site::Part(number)),
        SiteKind::Rest => rest_of(grammar, number),
    }
}
