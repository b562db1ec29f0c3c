//! The furthest places of sites.

use crate::calls::grammar_of;
use crate::denials::calls::PAIR;
use pv_missing::are_productive;
use pv_model::{NameId, Token};
use pv_productive::Grammar;
use pv_reach::{Judge, Plan, Reaches, furthest, furthest_by};
use pv_rules::Site;
use std::alloc::Global;
use std::test::Fail;

fn reaches_over(alloc: Global, grammar: &Grammar, word: &[Token]) -> Result<Reaches, Fail> {
    if !are_productive(grammar, word) {
        return Err(Fail::new("a name isn't productive"));
    }
    Ok(furthest(alloc, grammar, word)?)
}

/// The furthest places of all sites over a word, by a plan of the grammar.
fn planned_reaches(alloc: Global, grammar: &Grammar, word: &[Token]) -> Result<Reaches, Fail> {
    if !are_productive(grammar, word) {
        return Err(Fail::new("a name isn't productive"));
    }
    let plan = Plan::of(alloc, grammar)?;
    let judge = Judge::new(alloc, grammar, &plan);
    Ok(furthest_by(&judge, word)?)
}

/// The furthest place of a site from a place of a word.
fn end_of(
    alloc: Global,
    dtd: &str,
    word: &[Token],
    site: Site,
    place: u32,
) -> Result<Option<u32>, Fail> {
    let grammar = grammar_of(alloc, dtd)?;
    Ok(reaches_over(alloc, &grammar, word)?.at(site, place))
}

/// The furthest place of a site from a place of a word, by a plan of the grammar.
fn planned_end(
    alloc: Global,
    dtd: &str,
    word: &[Token],
    site: Site,
    place: u32,
) -> Result<Option<u32>, Fail> {
    let grammar = grammar_of(alloc, dtd)?;
    Ok(planned_reaches(alloc, &grammar, word)?.at(site, place))
}

/// The pair the wrong way round.
static TURNED: [Token; 2] = [Token::Name(NameId(2)), Token::Name(NameId(1))];

/// Sites, and their furthest places from each place of the turned pair.
static ENDS: [(Site, [u32; 3]); 11] = [
    (Site::Content(NameId(0)), [1, 2, 2]),
    (Site::Content(NameId(1)), [0, 1, 2]),
    (Site::Content(NameId(2)), [0, 1, 2]),
    (Site::Name(NameId(0)), [1, 2, 2]),
    (Site::Name(NameId(1)), [0, 2, 2]),
    (Site::Name(NameId(2)), [1, 1, 2]),
    (Site::Part(0), [1, 2, 2]),
    (Site::Part(1), [0, 2, 2]),
    (Site::Part(2), [1, 1, 2]),
    (Site::Rest(1), [1, 2, 2]),
    (Site::Rest(2), [1, 1, 2]),
];

#[test]
fn furthest_places(rt: HostRuntime) -> Result<(), Fail> {
    for (site, ends) in &ENDS {
        for (place, end) in ends.iter().enumerate() {
            let found = end_of(rt.alloc(), PAIR, &TURNED, *site, place as u32)?;
            assert_eq!(rt; found, Some(*end), "{site:?} from {place}");
            let planned = planned_end(rt.alloc(), PAIR, &TURNED, *site, place as u32)?;
            assert_eq!(rt; planned, Some(*end), "{site:?} from {place}, planned");
        }
    }
    Ok(())
}

/// A name that isn't productive, and one that may hold a name that isn't.
const ENDLESS: &str = "<!ELEMENT a (a)><!ELEMENT c (b?)>";

/// Sites, and their furthest places from a place of a text.
static OVER_A_TEXT: [(Site, u32, Option<u32>); 5] = [
    (Site::Content(NameId(0)), 0, None),
    (Site::Name(NameId(0)), 0, None),
    (Site::Content(NameId(2)), 1, None),
    (Site::Content(NameId(1)), 0, Some(0)),
    (Site::Name(NameId(1)), 1, Some(1)),
];

#[test]
fn no_place_is_reached(rt: HostRuntime) -> Result<(), Fail> {
    for (site, place, end) in &OVER_A_TEXT {
        let found = end_of(rt.alloc(), ENDLESS, &[Token::Text], *site, *place)?;
        assert_eq!(rt; found, *end, "{site:?} from {place}");
    }
    Ok(())
}
