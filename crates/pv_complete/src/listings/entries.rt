//! The entries of a word's table: all light weights, site after site and span after span.

ghost use Rattle.std.specs.Prelude.{◌≡◌, ◌≤◌, ◌<◌, ◌+◌, ◌^◌, IfErr, IfOk, OnOk, length, map, suc};
ghost use Rattle.pv_model.specs.PlainForms.{plain_token};
ghost use Rattle.pv_productive.specs.PlainForms.{dtd_of};
ghost use Rattle.pv_rules.specs.PlainForms.{plain_site};
ghost use Rattle.pv_rules.specs.Sites.{HasSite, PlainSite};
ghost use Rattle.pv_span.specs.Weights.{tokens_of, weight_of};
ghost use Rattle.pv_complete.specs.Kinds.{count_of, rank_of_kind};
ghost use Rattle.pv_complete.specs.Listings.{IsListedTo, StopsListing, key};
ghost use Rattle.pv_tables.specs.Tables.{kind_rank, site_number};

use crate::errors::NeedError;
use crate::listings::kinds::{SiteKind, count_of, site_at};
use pv_productive::Grammar;
use pv_rules::{HEAVIEST, Site};
use pv_span::{Entry, Spans};
use std::alloc::Global;

/// A site whose entries are listed, with the weights of all sites over the spans of a word of so
/// many tokens.
#[derive(Clone, Copy)]
struct Listing<'a> {
    grammar: &'a Grammar,
    spans: &'a Spans<'a>,
    site: Site,
    tokens: u32,
    pub ghost has: { ∥ HasSite (dtd_of grammar.now) (plain_site site) ∥₁ },
    pub ghost long: { tokens ≡ tokens_of spans.now },
    pub ghost short: { tokens < 2 ^ 13 },
}

/// Lists the entry of the site over a span, if its weight is light.
fn list_span(
    listing: &Listing<'_>,
    from: u32,
    to: u32,
    room: u32,
    entries: &mut Vec<Entry>,
) -> Result<(), NeedError>
    requires places { (from ≤ to) × (to ≤ listing.now.tokens) }
    requires few { length entries.old.items ≤ room }
    requires listed { IsListedTo (dtd_of listing.now.grammar.now) (tokens_of listing.now.spans.now)
        (weight_of listing.now.spans.now) (key (kind_rank (plain_site listing.now.site))
        (site_number (plain_site listing.now.site)) from to) entries.old.items }
    ensures few { OnOk result (length entries.new.items ≤ room) }
    ensures listed { OnOk result (IsListedTo (dtd_of listing.now.grammar.now)
        (tokens_of listing.now.spans.now) (weight_of listing.now.spans.now)
        (key (kind_rank (plain_site listing.now.site)) (site_number (plain_site listing.now.site))
        from (suc to)) entries.new.items) }
    ensures refused { IfErr result (StopsListing (dtd_of listing.now.grammar.now)
        (tokens_of listing.now.spans.now) (weight_of listing.now.spans.now) room) }
{
    let value = listing.spans.at(listing.site, from, to);
    if value >= HEAVIEST {
        return Ok(());
    }
    if entries.len() >= room as usize {
        return Err(NeedError::TooMany);
    }
    entries.push(Entry {
        site: listing.site,
        from,
        to,
        value,
    })?;
    Ok(())
}

/// Lists the entries of the site over the spans from a place.
fn list_from(
    listing: &Listing<'_>,
    from: u32,
    room: u32,
    entries: &mut Vec<Entry>,
) -> Result<(), NeedError>
    requires place { from ≤ listing.now.tokens }
    requires few { length entries.old.items ≤ room }
    requires listed { IsListedTo (dtd_of listing.now.grammar.now) (tokens_of listing.now.spans.now)
        (weight_of listing.now.spans.now) (key (kind_rank (plain_site listing.now.site))
        (site_number (plain_site listing.now.site)) from from) entries.old.items }
    ensures few { OnOk result (length entries.new.items ≤ room) }
    ensures listed { OnOk result (IsListedTo (dtd_of listing.now.grammar.now)
        (tokens_of listing.now.spans.now) (weight_of listing.now.spans.now)
        (key (kind_rank (plain_site listing.now.site)) (site_number (plain_site listing.now.site))
        (suc from) (suc from)) entries.new.items) }
    ensures refused { IfErr result (StopsListing (dtd_of listing.now.grammar.now)
        (tokens_of listing.now.spans.now) (weight_of listing.now.spans.now) room) }
{
    for to in from..listing.tokens + 1 {
        list_span(listing, from, to, room, entries)?;
    }
    Ok(())
}

/// Lists the entries of the site.
fn list_site(listing: &Listing<'_>, room: u32, entries: &mut Vec<Entry>) -> Result<(), NeedError>
    requires few { length entries.old.items ≤ room }
    requires listed { IsListedTo (dtd_of listing.now.grammar.now) (tokens_of listing.now.spans.now)
        (weight_of listing.now.spans.now) (key (kind_rank (plain_site listing.now.site))
        (site_number (plain_site listing.now.site)) 0 0) entries.old.items }
    ensures few { OnOk result (length entries.new.items ≤ room) }
    ensures listed { OnOk result (IsListedTo (dtd_of listing.now.grammar.now)
        (tokens_of listing.now.spans.now) (weight_of listing.now.spans.now)
        (key (kind_rank (plain_site listing.now.site))
        (suc (site_number (plain_site listing.now.site))) 0 0) entries.new.items) }
    ensures refused { IfErr result (StopsListing (dtd_of listing.now.grammar.now)
        (tokens_of listing.now.spans.now) (weight_of listing.now.spans.now) room) }
{
    for from in 0..listing.tokens + 1 {
        list_from(listing, from, room, entries)?;
    }
    Ok(())
}

/// Lists the entries of the site of a kind and number, if there is one.
fn list_number(
    grammar: &Grammar,
    spans: &Spans<'_>,
    kind: SiteKind,
    number: u32,
    tokens: u32,
    room: u32,
    entries: &mut Vec<Entry>,
) -> Result<(), NeedError>
    requires number { number < count_of (dtd_of grammar.now) kind }
    requires tokens { (tokens ≡ tokens_of spans.now) × (tokens < 2 ^ 13) }
    requires few { length entries.old.items ≤ room }
    requires listed { IsListedTo (dtd_of grammar.now) (tokens_of spans.now) (weight_of spans.now)
        (key (rank_of_kind kind) number 0 0) entries.old.items }
    ensures few { OnOk result (length entries.new.items ≤ room) }
    ensures listed { OnOk result (IsListedTo (dtd_of grammar.now) (tokens_of spans.now)
        (weight_of spans.now)
        (key (rank_of_kind kind) (suc number) 0 0) entries.new.items) }
    ensures refused { IfErr result (StopsListing (dtd_of grammar.now) (tokens_of spans.now)
        (weight_of spans.now) room) }
{
    match site_at(grammar, kind, number) {
        Some(site) => {
            let listing = Listing {
                grammar,
                spans,
                site,
                tokens,
            };
            list_site(&listing, room, entries)
        }
        None => Ok(()),
    }
}

/// Lists the entries of the sites of a kind.
fn list_kind(
    grammar: &Grammar,
    spans: &Spans<'_>,
    kind: SiteKind,
    tokens: u32,
    room: u32,
    entries: &mut Vec<Entry>,
) -> Result<(), NeedError>
    requires tokens { (tokens ≡ tokens_of spans.now) × (tokens < 2 ^ 13) }
    requires few { length entries.old.items ≤ room }
    requires listed { IsListedTo (dtd_of grammar.now) (tokens_of spans.now) (weight_of spans.now)
        (key (rank_of_kind kind) 0 0 0) entries.old.items }
    ensures few { OnOk result (length entries.new.items ≤ room) }
    ensures listed { OnOk result (IsListedTo (dtd_of grammar.now) (tokens_of spans.now)
        (weight_of spans.now)
        (key (suc (rank_of_kind kind)) 0 0 0) entries.new.items) }
    ensures refused { IfErr result (StopsListing (dtd_of grammar.now) (tokens_of spans.now)
        (weight_of spans.now) room) }
{
    for number in 0..count_of(grammar, kind) {
        list_number(grammar, spans, kind, number, tokens, room, entries)?;
    }
    Ok(())
}

/// All entries of a word of so many tokens, if there are no more than there is room for.
pub fn entries_of(
    alloc: Global,
    grammar: &Grammar,
    spans: &Spans<'_>,
    tokens: u32,
    room: u32,
) -> Result<Vec<Entry>, NeedError>
    requires tokens { (tokens ≡ tokens_of spans.now) × (tokens < 2 ^ 13) }
    ensures few { IfOk result (λ entries. length entries.items ≤ room) }
    ensures listed { IfOk result (λ entries. IsListedTo (dtd_of grammar.now) (tokens_of spans.now)
        (weight_of spans.now)
        (key 4 0 0 0) entries.items) }
    ensures refused { IfErr result (StopsListing (dtd_of grammar.now) (tokens_of spans.now)
        (weight_of spans.now) room) }
{
    let mut entries = Vec::new(alloc);
    list_kind(
        grammar,
        spans,
        SiteKind::Content,
        tokens,
        room,
        &mut entries,
    )?;
    list_kind(grammar, spans, SiteKind::Name, tokens, room, &mut entries)?;
    list_kind(grammar, spans, SiteKind::Part, tokens, room, &mut entries)?;
    list_kind(grammar, spans, SiteKind::Rest, tokens, room, &mut entries)?;
    Ok(entries)
}
