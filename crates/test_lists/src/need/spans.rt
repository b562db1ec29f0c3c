//! Words that are possible and words that aren't, weights, and verdicts of lists.

ghost use Rattle.std.specs.Prelude.{◌≡◌, ◌<◌};

use crate::calls::grammar_of;
use pv_chars::{NoMemory, bytes_of};
use pv_missing::{Of, live_word};
use pv_model::NameId;
use pv_productive::Grammar;
use pv_rules::Site;
use pv_span::{
    Entries, Entry, SpanError, Tables, is_known_owner, lay_out, list_verdict, member, weights,
    weights_by,
};
use pv_steps::Steps;
use pv_tree::{End, Mark, Node, Verdict};
use std::alloc::Global;
use std::marker::Brand;
use std::sync::ledger::{Blank, Ledger};
use std::test::Fail;
use test_fixture::dtds::{ARTICLE, DOUBLING, ENDLESS, NESTED};

const ANYTHING: &str = "<!ELEMENT r ANY><!ELEMENT s (t, t)><!ELEMENT t EMPTY>";

const DATA: &str = "a CDATA section";

const COMMENT: &str = "a comment";

const DOC: Of = Of::Elem(NameId(0));

fn element(alloc: Global, name: &str) -> Result<Node, NoMemory> {
    Ok(Node::Elem {
        name: bytes_of(alloc, name.as_bytes())?,
        attrs: bytes_of(alloc, b"")?,
        end: End::Short,
        kids: Vec::new(alloc),
        mark: Mark::BLANK,
    })
}

/// An element of a name, a section of data or a comment.
fn node(alloc: Global, name: &str) -> Result<Node, NoMemory> {
    if name == DATA {
        return Ok(Node::Cdata(bytes_of(alloc, b"<![CDATA[x]]>")?));
    }
    if name == COMMENT {
        return Ok(Node::Misc(bytes_of(alloc, b"<!---->")?));
    }
    element(alloc, name)
}

fn nodes(alloc: Global, names: &[&str]) -> Result<Vec<Node>, NoMemory> {
    let mut nodes = Vec::new(alloc);
    for name in names {
        nodes.push(node(alloc, *name)?)?;
    }
    Ok(nodes)
}

/// The site of an owner.
fn site_of(of: Of) -> Site {
    match of {
        Of::Root(id) => Site::Name(id),
        Of::Elem(id) => Site::Content(id),
    }
}

/// Whether the live word of kids is possible, where the DTD has the owner's name.
fn is_member<L: Ledger>(
    alloc: Global,
    grammar: &Grammar,
    of: Of,
    kids: &[Node],
    blank: Blank,
) -> Result<bool, SpanError>
    requires name { blank.name ≡ L.name }
    requires parts { blank.parts ≡ L.parts }
    requires some { 0 < L.parts }
{
    let mut steps = Steps::<L>::start(blank);
    if !is_known_owner(grammar, of) {
        return Ok(false);
    }
    let live = live_word(alloc, grammar, kids)?;
    member(alloc, grammar, of, live.as_slice(), &mut steps)
}

/// The weight of the live word of kids at their owner's site, where the DTD has the owner's name.
fn weight(alloc: Global, grammar: &Grammar, of: Of, kids: &[Node]) -> Result<u32, SpanError> {
    if !is_known_owner(grammar, of) {
        return Ok(0);
    }
    let live = live_word(alloc, grammar, kids)?;
    let tokens = live.as_slice();
    let layout = lay_out(alloc, grammar)?;
    let spans = weights_by(alloc, &layout, tokens)?;
    Ok(spans.at(site_of(of), 0, tokens.len() as u32))
}

/// The weight of a site over the live word of kids, from token number `from` up to number `to`.
fn weight_over(
    alloc: Global,
    grammar: &Grammar,
    kids: &[Node],
    site: Site,
    from: u32,
    to: u32,
) -> Result<u32, SpanError> {
    let live = live_word(alloc, grammar, kids)?;
    let tokens = live.as_slice();
    if grammar.dtd().names() == 0 || from > to || to as usize > tokens.len() {
        return Ok(0);
    }
    let spans = weights(alloc, grammar, tokens)?;
    Ok(spans.at(site, from, to))
}

/// The verdict of a list, where the DTD has the owner's name.
fn verdict<L: Ledger>(
    alloc: Global,
    grammar: &Grammar,
    owner: u32,
    kids: &[Node],
    blank: Blank,
) -> Result<Verdict, SpanError>
    requires name { blank.name ≡ L.name }
    requires parts { blank.parts ≡ L.parts }
    requires some { 0 < L.parts }
{
    let mut steps = Steps::<L>::start(blank);
    let of = (owner < grammar.dtd().names()).then_some(Of::Elem(NameId(owner)));
    list_verdict(alloc, grammar, of, kids, &mut steps)
}

/// A DTD, the owner of a list and its kids, whether their word is possible, and its weight.
type Row = (&'static str, Of, &'static [&'static str], bool, u32);

/// The content of `br` by the article's DTD.
const BR: Of = Of::Elem(NameId(6));

/// Words, the last three of types each of which needs two of the next one: 2^21 - 1 elements are
/// more than 1,000,000, and 2^19 - 1 are not.
static WORDS: [Row; 16] = [
    (ARTICLE, DOC, &[DATA], true, 2),
    (ARTICLE, DOC, &["p", "title"], true, 3),
    (ARTICLE, DOC, &["sec", "head"], false, 1_000_001),
    (ARTICLE, Of::Root(NameId(0)), &["p"], true, 3),
    (ARTICLE, BR, &[], true, 0),
    (ARTICLE, BR, &[DATA], false, 1_000_001),
    (ARTICLE, DOC, &["head", "sec"], true, 0),
    (NESTED, DOC, &["y", "y", "y"], true, 3),
    (ENDLESS, Of::Root(NameId(0)), &[], false, 1_000_001),
    (ANYTHING, DOC, &[DATA, "s", "t", DATA], true, 0),
    (ANYTHING, DOC, &["r", "q"], false, 1_000_001),
    (ANYTHING, Of::Elem(NameId(1)), &["t"], true, 1),
    (ANYTHING, Of::Root(NameId(0)), &["s", "t"], true, 1),
    (DOUBLING, Of::Root(NameId(0)), &[], true, 1_000_001),
    (DOUBLING, Of::Root(NameId(2)), &[], true, 524_287),
    (DOUBLING, Of::Root(NameId(2)), &["t3"], true, 262_144),
];

/// Whether a row's word is possible.
fn is_possible(alloc: Global, row: &Row) -> Result<bool, Fail> {
    let grammar = grammar_of(alloc, row.0)?;
    let kids = nodes(alloc, row.2)?;
    Ok(is_member::<Brand>(alloc, &grammar, row.1, &kids, Blank::new(1))?)
}

/// The weight of a row's word.
fn weight_of(alloc: Global, row: &Row) -> Result<u32, Fail> {
    let grammar = grammar_of(alloc, row.0)?;
    let kids = nodes(alloc, row.2)?;
    Ok(weight(alloc, &grammar, row.1, &kids)?)
}

#[test]
fn words(rt: HostRuntime) -> Result<(), Fail> {
    let alloc = rt.alloc();
    for row in &WORDS {
        let (dtd, of, names, possible, wanted) = *row;
        assert_eq!(rt;
            is_possible(alloc, row)?,
            possible,
            "{names:?} in {of:?} by {dtd}"
        );
        assert_eq!(rt;
            weight_of(alloc, row)?,
            wanted,
            "{names:?} in {of:?} by {dtd}"
        );
    }
    Ok(())
}

const DOC_NAME: NameId = NameId(0);

const SEC_NAME: NameId = NameId(2);

const P_NAME: NameId = NameId(4);

/// Weights of sites over a paragraph and a title. The parts of the article's model are its
/// sequence, the head, the sections, and a section.
static SITES: [(Site, u32, u32, u32); 11] = [
    (Site::Content(DOC_NAME), 0, 2, 3),
    (Site::Content(DOC_NAME), 0, 1, 2),
    (Site::Content(DOC_NAME), 1, 1, 2),
    (Site::Name(P_NAME), 0, 1, 0),
    (Site::Name(P_NAME), 1, 1, 1),
    (Site::Name(P_NAME), 1, 2, 1_000_001),
    (Site::Name(SEC_NAME), 0, 1, 1),
    (Site::Name(SEC_NAME), 0, 2, 1_000_001),
    (Site::Part(2), 0, 2, 2),
    (Site::Rest(1), 0, 2, 3),
    (Site::Rest(0), 0, 2, 1_000_001),
];

fn weight_of_site(alloc: Global, site: Site, from: u32, to: u32) -> Result<u32, Fail> {
    let grammar = grammar_of(alloc, ARTICLE)?;
    let kids = nodes(alloc, &["p", "title"])?;
    Ok(weight_over(alloc, &grammar, &kids, site, from, to)?)
}

#[test]
fn sites_over_spans(rt: HostRuntime) -> Result<(), Fail> {
    for (site, from, to, wanted) in &SITES {
        let found = weight_of_site(rt.alloc(), *site, *from, *to)?;
        assert_eq!(rt; found, *wanted, "{site:?} from {from} up to {to}");
    }
    Ok(())
}

/// Many sections.
fn sections(alloc: Global, count: u32) -> Result<Vec<Node>, NoMemory> {
    let mut kids = Vec::new(alloc);
    for _ in 0..count {
        kids.push(element(alloc, "sec")?)?;
    }
    Ok(kids)
}

/// Whether a list is too wide to tell whether its word is possible, its weight, and its verdict.
fn are_too_wide(alloc: Global, grammar: &Grammar, kids: &[Node]) -> [bool; 3] {
    [
        matches!(
            is_member::<Brand>(alloc, grammar, DOC, kids, Blank::new(1)),
            Err(SpanError::TooWide)
        ),
        matches!(weight(alloc, grammar, DOC, kids), Err(SpanError::TooWide)),
        matches!(
            verdict::<Brand>(alloc, grammar, 0, kids, Blank::new(1)),
            Err(SpanError::TooWide)
        ),
    ]
}

/// The article's DTD has 30 parts and names: 1,058 * 1,059 / 2 spans of it are too many.
fn are_sections_too_wide(alloc: Global) -> Result<[bool; 3], Fail> {
    let grammar = grammar_of(alloc, ARTICLE)?;
    let kids = sections(alloc, 1_057)?;
    Ok(are_too_wide(alloc, &grammar, &kids))
}

#[test]
fn wide_lists(rt: HostRuntime) -> Result<(), Fail> {
    assert_eq!(rt; are_sections_too_wide(rt.alloc())?, [true, true, true]);
    Ok(())
}

/// The number of an owner by the article's DTD, which has nine names, its kids, and their verdict.
static LISTS: [(u32, &[&str], Verdict); 7] = [
    (6, &[], Verdict::Valid),
    (9, &[], Verdict::Impossible),
    (6, &[COMMENT], Verdict::Impossible),
    (2, &[COMMENT], Verdict::Valid),
    (0, &[COMMENT, "sec", "p"], Verdict::Possible),
    (2, &[COMMENT, "sec", "p"], Verdict::Impossible),
    (0, &[COMMENT, "sec", "p", "q"], Verdict::Impossible),
];

fn verdict_of(alloc: Global, owner: u32, names: &[&str]) -> Result<Verdict, Fail> {
    let grammar = grammar_of(alloc, ARTICLE)?;
    let kids = nodes(alloc, names)?;
    Ok(verdict::<Brand>(alloc, &grammar, owner, &kids, Blank::new(1))?)
}

#[test]
fn verdicts(rt: HostRuntime) -> Result<(), Fail> {
    for (owner, names, wanted) in &LISTS {
        let found = verdict_of(rt.alloc(), *owner, *names)?;
        assert_eq!(rt; found, *wanted, "{names:?} in {owner}");
    }
    Ok(())
}

fn one_entry(alloc: Global) -> Result<usize, Fail> {
    let entry = Entry {
        site: Site::Part(3),
        from: 0,
        to: 2,
        value: 5,
    };
    Ok(Entries::of(vec![in alloc; entry; 1]?).as_slice().len())
}

fn no_tables(alloc: Global) -> usize {
    Tables::of(Vec::new(alloc)).as_slice().len()
}

#[test]
fn lists_of_tables(rt: HostRuntime) -> Result<(), Fail> {
    assert_eq!(rt; one_entry(rt.alloc())?, 1);
    assert_eq!(rt; no_tables(rt.alloc()), 0);
    Ok(())
}
