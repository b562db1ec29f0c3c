//! Whether rows hold under all rules of a site.

ghost use Rattle.std.specs.Prelude.{◌≡◌, ◌≤◌, ◌<◌, ◌+◌, ◌^◌, ◌↔◌, ℕ, IsTrue, Some, length, map};
ghost use Rattle.std.specs.Prelude.{suc};
ghost use Rattle.pv_model.specs.Plain.{PlainPart, PlainParts, choice};
ghost use Rattle.pv_model.specs.PlainForms.{plain_token};
ghost use Rattle.pv_dtd.specs.Plain.{IsDeclared, parts_in_models};
ghost use Rattle.pv_rules.specs.Barriers.{IsBarrierAtRows};
ghost use Rattle.pv_rules.specs.Numbering.{IsChoiceAt, IsMemberAt, part_at};
ghost use Rattle.pv_rules.specs.PlainForms.{plain_site};
ghost use Rattle.pv_rules.specs.Rules.{IsKnownWord};
ghost use Rattle.pv_rules.specs.Sites.{content_site, name_site, part_site, rest_site};
ghost use Rattle.pv_productive.specs.PlainForms.{dtd_of};
ghost use Rattle.pv_denial.specs.RowForms.{HoldsAt, HoldsKept, HoldsNoSide, HoldsOneSide};
ghost use Rattle.pv_denial.specs.RowForms.{HoldsOverTexts};
ghost use Rattle.pv_denial.specs.RowForms.{AreMost, HoldsTwoSides};
ghost use Rattle.pv_denial.specs.Rows.{EachRow, IsRow, row_value};

use crate::barrier::Barrier;
use crate::forms::{kept_holds, none_holds, one_holds, past_from, text_holds, two_holds};
use pv_model::{NameId, Token};
use pv_productive::Grammar;
use pv_rules::{ContentKind, Kind, Membership, Site};

/// Whether an element of a name leads beyond each token of that name, and as far as its content.
fn element_holds(barrier: &Barrier<'_>, id: NameId, word: &[Token]) -> bool
    requires { length word.now < 2 ^ 62 }
    ensures { IsTrue result ↔ (HoldsKept barrier.now id.0 (map plain_token word.now) ×
        HoldsOneSide barrier.now (name_site id.0) (content_site id.0) (length word.now)) }
{
    kept_holds(barrier, id, word)
        && one_holds(barrier, Site::Name(id), Site::Content(id), word.len())
}

/// Whether the rules of an element of a name hold.
fn name_holds(grammar: &Grammar, barrier: &Barrier<'_>, id: NameId, word: &[Token]) -> bool
    requires short { length word.now < 2 ^ 62 }
    requires rows { EachRow (IsRow (dtd_of grammar.now) (length word.now)) barrier.now }
    ensures { IsTrue result ↔ HoldsAt (dtd_of grammar.now) (map plain_token word.now) barrier.now
        (name_site id.0) }
{
    element_holds(barrier, id, word)
}

/// Whether some content is at least itself after each part from `first` up to `end`.
fn parts_hold(barrier: &Barrier<'_>, id: NameId, first: u32, end: u32, tokens: usize) -> bool
    requires { tokens < 2 ^ 62 }
    ensures { IsTrue result ↔ ((q : ℕ) → first ≤ q → q < end →
        HoldsTwoSides barrier.now (content_site id.0) (part_site q) (content_site id.0) tokens) }
{
    for number in first..end {
        let content = Site::Content(id);
        if !two_holds(barrier, content, Site::Part(number), content, tokens) {
            return false;
        }
    }
    true
}

/// Whether some content is at least itself after each declared name, by the most of these.
fn names_hold(
    grammar: &Grammar,
    barrier: &Barrier<'_>,
    id: NameId,
    most: &[u64],
    word: &[Token],
) -> bool
    requires rows { EachRow (IsRow (dtd_of grammar.now) (length word.now)) barrier.now }
    requires most { AreMost (dtd_of grammar.now) barrier.now (length word.now) most.now }
    ensures { IsTrue result ↔ ((y : ℕ) → IsDeclared (dtd_of grammar.now) y →
        HoldsTwoSides barrier.now (content_site id.0) (name_site y) (content_site id.0)
        (length word.now)) }
{
    for (place, past) in most.iter().enumerate() {
        let content = Site::Content(id);
        if barrier.past_at(content, place) < past_from(barrier, content, *past) {
            return false;
        }
    }
    true
}

/// Whether some content has a value at each place, and each text may stand in it.
fn texts_hold(barrier: &Barrier<'_>, id: NameId, word: &[Token]) -> bool
    requires { length word.now < 2 ^ 62 }
    ensures { IsTrue result ↔ (HoldsNoSide barrier.now (content_site id.0) (length word.now) ×
        HoldsOverTexts barrier.now (content_site id.0) (map plain_token word.now)) }
{
    none_holds(barrier, Site::Content(id), word.len())
        && text_holds(barrier, Site::Content(id), word)
}

/// Whether the rules of mixed content hold, whose parts have the numbers from `first` up to `end`.
fn mixed_holds(barrier: &Barrier<'_>, id: NameId, first: u32, end: u32, word: &[Token]) -> bool
    requires { length word.now < 2 ^ 62 }
    ensures { IsTrue result ↔ ((HoldsNoSide barrier.now (content_site id.0) (length word.now) ×
        HoldsOverTexts barrier.now (content_site id.0) (map plain_token word.now)) ×
        ((q : ℕ) → first ≤ q → q < end → HoldsTwoSides barrier.now (content_site id.0) (part_site q)
        (content_site id.0) (length word.now))) }
{
    texts_hold(barrier, id, word) && parts_hold(barrier, id, first, end, word.len())
}

/// Whether the rules of content that may be anything hold.
fn any_holds(
    grammar: &Grammar,
    barrier: &Barrier<'_>,
    id: NameId,
    most: &[u64],
    word: &[Token],
) -> bool
    requires short { length word.now < 2 ^ 62 }
    requires rows { EachRow (IsRow (dtd_of grammar.now) (length word.now)) barrier.now }
    requires most { AreMost (dtd_of grammar.now) barrier.now (length word.now) most.now }
    ensures { IsTrue result ↔ ((HoldsNoSide barrier.now (content_site id.0) (length word.now) ×
        HoldsOverTexts barrier.now (content_site id.0) (map plain_token word.now)) ×
        ((y : ℕ) → IsDeclared (dtd_of grammar.now) y → HoldsTwoSides barrier.now (content_site id.0)
        (name_site y) (content_site id.0) (length word.now))) }
{
    texts_hold(barrier, id, word) && names_hold(grammar, barrier, id, most, word)
}

/// Whether the rules of the content of a name hold.
fn content_holds(
    grammar: &Grammar,
    barrier: &Barrier<'_>,
    id: NameId,
    most: &[u64],
    word: &[Token],
) -> bool
    requires short { length word.now < 2 ^ 62 }
    requires rows { EachRow (IsRow (dtd_of grammar.now) (length word.now)) barrier.now }
    requires most { AreMost (dtd_of grammar.now) barrier.now (length word.now) most.now }
    ensures { IsTrue result ↔ HoldsAt (dtd_of grammar.now) (map plain_token word.now) barrier.now
        (content_site id.0) }
{
    let Some(content) = grammar.content_of(id) else {
        return true;
    };
    let site = Site::Content(id);
    match content.kind {
        ContentKind::Empty => none_holds(barrier, site, word.len()),
        ContentKind::Any => any_holds(grammar, barrier, id, most, word),
        ContentKind::Mixed => mixed_holds(barrier, id, content.first, content.end, word),
        ContentKind::Children => one_holds(barrier, site, Site::Part(content.first), word.len()),
    }
}

/// Whether a choice is at least each of its members, which end before `end`.
fn choice_holds(
    grammar: &Grammar,
    barrier: &Barrier<'_>,
    number: u32,
    end: u32,
    tokens: usize,
) -> bool
    requires choice { IsChoiceAt (dtd_of grammar.now) number end }
    requires short { tokens < 2 ^ 62 }
    ensures { (ps : PlainParts) → part_at (dtd_of grammar.now) number ≡ Some (choice ps) →
        IsTrue result ↔ ((p : PlainPart) (r : ℕ) → IsMemberAt p r (suc number) ps →
        HoldsOneSide barrier.now (part_site number) (part_site r) tokens) }
{
    let mut member = number + 1;
    while member < end {
        if !one_holds(barrier, Site::Part(number), Site::Part(member), tokens) {
            return false;
        }
        member = grammar.flat().end_of(member);
    }
    true
}

/// Whether the rules of a part hold that may be left out.
fn opt_holds(barrier: &Barrier<'_>, site: Site, inner: Site, tokens: usize) -> bool
    requires { tokens < 2 ^ 62 }
    ensures { IsTrue result ↔ (HoldsNoSide barrier.now (plain_site site) tokens ×
        HoldsOneSide barrier.now (plain_site site) (plain_site inner) tokens) }
{
    none_holds(barrier, site, tokens) && one_holds(barrier, site, inner, tokens)
}

/// Whether the rules of a part hold that may be left out or stand any number of times.
fn star_holds(barrier: &Barrier<'_>, site: Site, inner: Site, tokens: usize) -> bool
    requires { tokens < 2 ^ 62 }
    ensures { IsTrue result ↔ (HoldsNoSide barrier.now (plain_site site) tokens ×
        HoldsTwoSides barrier.now (plain_site site) (plain_site inner) (plain_site site) tokens) }
{
    none_holds(barrier, site, tokens) && two_holds(barrier, site, inner, site, tokens)
}

/// Whether the rules of a part hold that may stand any number of times.
fn plus_holds(barrier: &Barrier<'_>, site: Site, inner: Site, tokens: usize) -> bool
    requires { tokens < 2 ^ 62 }
    ensures { IsTrue result ↔
        (HoldsOneSide barrier.now (plain_site site) (plain_site inner) tokens ×
        HoldsTwoSides barrier.now (plain_site site) (plain_site inner) (plain_site site) tokens) }
{
    one_holds(barrier, site, inner, tokens) && two_holds(barrier, site, inner, site, tokens)
}

/// Whether the rules of a part hold.
fn part_holds(grammar: &Grammar, barrier: &Barrier<'_>, number: u32, word: &[Token]) -> bool
    requires within { number + 1 < 2 ^ 32 }
    requires short { length word.now < 2 ^ 62 }
    requires rows { EachRow (IsRow (dtd_of grammar.now) (length word.now)) barrier.now }
    ensures { IsTrue result ↔ HoldsAt (dtd_of grammar.now) (map plain_token word.now) barrier.now
        (part_site number) }
{
    let Some(part) = grammar.part_of(number) else {
        return true;
    };
    let site = Site::Part(number);
    let inner = Site::Part(number + 1);
    let tokens = word.len();
    match part.kind {
        Kind::Name(id) => one_holds(barrier, site, Site::Name(id), tokens),
        Kind::Seq => one_holds(barrier, site, Site::Rest(number + 1), tokens),
        Kind::Choice => choice_holds(grammar, barrier, number, part.end, tokens),
        Kind::Opt => opt_holds(barrier, site, inner, tokens),
        Kind::Star => star_holds(barrier, site, inner, tokens),
        Kind::Plus => plus_holds(barrier, site, inner, tokens),
    }
}

/// Whether the rules of the members of a sequence from one on hold.
fn rest_holds(grammar: &Grammar, barrier: &Barrier<'_>, number: u32, word: &[Token]) -> bool
    requires short { length word.now < 2 ^ 62 }
    requires rows { EachRow (IsRow (dtd_of grammar.now) (length word.now)) barrier.now }
    ensures { IsTrue result ↔ HoldsAt (dtd_of grammar.now) (map plain_token word.now) barrier.now
        (rest_site number) }
{
    let Some(part) = grammar.part_of(number) else {
        return true;
    };
    let site = Site::Rest(number);
    let tokens = word.len();
    match part.membership {
        Membership::Outside => true,
        Membership::Last => one_holds(barrier, site, Site::Part(number), tokens),
        Membership::Followed => {
            two_holds(
                barrier,
                site,
                Site::Part(number),
                Site::Rest(part.end),
                tokens,
            )
        }
    }
}

/// Whether the rules of a name and of its content hold.
fn both_hold(
    grammar: &Grammar,
    barrier: &Barrier<'_>,
    id: NameId,
    most: &[u64],
    word: &[Token],
) -> bool
    requires short { length word.now < 2 ^ 62 }
    requires rows { EachRow (IsRow (dtd_of grammar.now) (length word.now)) barrier.now }
    requires most { AreMost (dtd_of grammar.now) barrier.now (length word.now) most.now }
    ensures { IsTrue result ↔
        (HoldsAt (dtd_of grammar.now) (map plain_token word.now) barrier.now (name_site id.0) ×
        HoldsAt (dtd_of grammar.now) (map plain_token word.now) barrier.now (content_site id.0)) }
{
    name_holds(grammar, barrier, id, word) && content_holds(grammar, barrier, id, most, word)
}

/// Whether the rules of all names and their contents hold.
fn all_names_hold(grammar: &Grammar, barrier: &Barrier<'_>, most: &[u64], word: &[Token]) -> bool
    requires short { length word.now < 2 ^ 62 }
    requires rows { EachRow (IsRow (dtd_of grammar.now) (length word.now)) barrier.now }
    requires most { AreMost (dtd_of grammar.now) barrier.now (length word.now) most.now }
    ensures { IsTrue result ↔ ((x : ℕ) → x < length (dtd_of grammar.now).names →
        HoldsAt (dtd_of grammar.now) (map plain_token word.now) barrier.now (name_site x) ×
        HoldsAt (dtd_of grammar.now) (map plain_token word.now) barrier.now (content_site x)) }
{
    for name in 0..grammar.dtd().names() {
        if !both_hold(grammar, barrier, NameId(name), most, word) {
            return false;
        }
    }
    true
}

/// Whether the rules of a part hold, and those of the members of a sequence from it on.
fn number_holds(grammar: &Grammar, barrier: &Barrier<'_>, number: u32, word: &[Token]) -> bool
    requires within { number + 1 < 2 ^ 32 }
    requires short { length word.now < 2 ^ 62 }
    requires rows { EachRow (IsRow (dtd_of grammar.now) (length word.now)) barrier.now }
    ensures { IsTrue result ↔
        (HoldsAt (dtd_of grammar.now) (map plain_token word.now) barrier.now (part_site number) ×
        HoldsAt (dtd_of grammar.now) (map plain_token word.now) barrier.now (rest_site number)) }
{
    part_holds(grammar, barrier, number, word) && rest_holds(grammar, barrier, number, word)
}

/// Whether the rules of all parts hold, and of the members of sequences.
fn all_parts_hold(grammar: &Grammar, barrier: &Barrier<'_>, word: &[Token]) -> bool
    requires short { length word.now < 2 ^ 62 }
    requires rows { EachRow (IsRow (dtd_of grammar.now) (length word.now)) barrier.now }
    ensures { IsTrue result ↔ ((q : ℕ) → q < parts_in_models (dtd_of grammar.now).models →
        HoldsAt (dtd_of grammar.now) (map plain_token word.now) barrier.now (part_site q) ×
        HoldsAt (dtd_of grammar.now) (map plain_token word.now) barrier.now (rest_site q)) }
{
    for number in 0..grammar.dtd().parts() {
        if !number_holds(grammar, barrier, number, word) {
            return false;
        }
    }
    true
}

/// Whether the rules of all names and of all parts hold.
fn sites_hold(grammar: &Grammar, barrier: &Barrier<'_>, most: &[u64], word: &[Token]) -> bool
    requires short { length word.now < 2 ^ 62 }
    requires rows { EachRow (IsRow (dtd_of grammar.now) (length word.now)) barrier.now }
    requires most { AreMost (dtd_of grammar.now) barrier.now (length word.now) most.now }
    ensures { IsTrue result ↔
        (((x : ℕ) → x < length (dtd_of grammar.now).names →
        HoldsAt (dtd_of grammar.now) (map plain_token word.now) barrier.now (name_site x) ×
        HoldsAt (dtd_of grammar.now) (map plain_token word.now) barrier.now (content_site x)) ×
        ((q : ℕ) → q < parts_in_models (dtd_of grammar.now).models →
        HoldsAt (dtd_of grammar.now) (map plain_token word.now) barrier.now (part_site q) ×
        HoldsAt (dtd_of grammar.now) (map plain_token word.now) barrier.now (rest_site q))) }
{
    all_names_hold(grammar, barrier, most, word) && all_parts_hold(grammar, barrier, word)
}

/// Whether all rules hold: each left side is at least each right side. The most of the declared
/// names is told of each place.
pub fn all_hold(grammar: &Grammar, barrier: &Barrier<'_>, most: &[u64], word: &[Token]) -> bool
    requires short { length word.now < 2 ^ 62 }
    requires rows { EachRow (IsRow (dtd_of grammar.now) (length word.now)) barrier.now }
    requires most { AreMost (dtd_of grammar.now) barrier.now (length word.now) most.now }
    requires known { IsKnownWord (dtd_of grammar.now) (map plain_token word.now) }
    ensures { IsTrue result ↔ IsBarrierAtRows (dtd_of grammar.now) (map plain_token word.now)
        (row_value barrier.now) }
{
    sites_hold(grammar, barrier, most, word)
}
