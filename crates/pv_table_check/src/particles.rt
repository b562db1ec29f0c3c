//! Whether a table is closed at the parts of content models.

ghost use Rattle.std.specs.Prelude.{◌≡◌, ◌+◌, ◌<◌, ◌^◌, ◌↔◌, IsTrue, Some};
ghost use Rattle.pv_model.specs.Plain.{PlainPart, opt, plus, star};
ghost use Rattle.pv_rules.specs.Numbering.{IsChoiceAt, part_at};
ghost use Rattle.pv_rules.specs.Sites.{part_site, rest_site};
ghost use Rattle.pv_table_check.specs.Tested.{IsClosedIn, CanBeTested, dtd_in};

use crate::forms::{nothing_holds, one_holds, two_holds};
use crate::tested::Tested;
use pv_rules::{Kind, Membership, Site};
use pv_tables::laws::listed_or_not_law;

/// A choice, whose members end before `end`.
fn choice_closed(tested: &Tested<'_>, number: u32, end: u32) -> bool
    requires sound { CanBeTested tested.now }
    requires choice { IsChoiceAt (dtd_in tested.now) number end }
    ensures { IsTrue result ↔ IsClosedIn tested.now (part_site number) }
{
    listed_or_not_law();
    let own = Site::Part(number);
    let mut member = number + 1;
    while member < end {
        if !one_holds(tested.entries, own, Site::Part(member), 0) {
            return false;
        }
        member = tested.flat.end_of(member);
    }
    true
}

/// None of a part, or one.
fn opt_closed(tested: &Tested<'_>, number: u32) -> bool
    requires sound { CanBeTested tested.now }
    requires few { number + 1 < 2 ^ 32 }
    requires opt { (p : PlainPart) × (part_at (dtd_in tested.now) number ≡ Some (opt p)) }
    ensures { IsTrue result ↔ IsClosedIn tested.now (part_site number) }
{
    listed_or_not_law();
    let own = Site::Part(number);
    if !nothing_holds(tested.entries, own, tested.word.len() as u32) {
        return false;
    }
    one_holds(tested.entries, own, Site::Part(number + 1), 0)
}

/// None of a part, or some.
fn star_closed(tested: &Tested<'_>, number: u32) -> bool
    requires sound { CanBeTested tested.now }
    requires few { number + 1 < 2 ^ 32 }
    requires star { (p : PlainPart) × (part_at (dtd_in tested.now) number ≡ Some (star p)) }
    ensures { IsTrue result ↔ IsClosedIn tested.now (part_site number) }
{
    listed_or_not_law();
    let own = Site::Part(number);
    if !nothing_holds(tested.entries, own, tested.word.len() as u32) {
        return false;
    }
    let inner = Site::Part(number + 1);
    two_holds(tested, own, inner, true, own, false)
}

/// One of a part, or one and more.
fn plus_closed(tested: &Tested<'_>, number: u32) -> bool
    requires sound { CanBeTested tested.now }
    requires few { number + 1 < 2 ^ 32 }
    requires plus { (p : PlainPart) × (part_at (dtd_in tested.now) number ≡ Some (plus p)) }
    ensures { IsTrue result ↔ IsClosedIn tested.now (part_site number) }
{
    listed_or_not_law();
    let own = Site::Part(number);
    let inner = Site::Part(number + 1);
    if !one_holds(tested.entries, own, inner, 0) {
        return false;
    }
    two_holds(tested, own, inner, true, own, true)
}

/// Whether a table is closed at a part.
pub fn part_closed(tested: &Tested<'_>, number: u32) -> bool
    requires sound { CanBeTested tested.now }
    requires few { number + 1 < 2 ^ 32 }
    ensures { IsTrue result ↔ IsClosedIn tested.now (part_site number) }
{
    listed_or_not_law();
    let Some(part) = tested.flat.part(number) else {
        return true;
    };
    let own = Site::Part(number);
    match part.kind {
        Kind::Name(id) => one_holds(tested.entries, own, Site::Name(id), 0),
        Kind::Seq => one_holds(tested.entries, own, Site::Rest(number + 1), 0),
        Kind::Choice => choice_closed(tested, number, part.end),
        Kind::Opt => opt_closed(tested, number),
        Kind::Star => star_closed(tested, number),
        Kind::Plus => plus_closed(tested, number),
    }
}

/// Whether a table is closed at the members of a sequence from this one on.
pub fn rest_closed(tested: &Tested<'_>, number: u32) -> bool
    requires { CanBeTested tested.now }
    ensures { IsTrue result ↔ IsClosedIn tested.now (rest_site number) }
{
    listed_or_not_law();
    let Some(part) = tested.flat.part(number) else {
        return true;
    };
    let rest = Site::Rest(number);
    let own = Site::Part(number);
    match part.membership {
        Membership::Outside => true,
        Membership::Last => one_holds(tested.entries, rest, own, 0),
        Membership::Followed => { two_holds(tested, rest, own, false, Site::Rest(part.end), false) }
    }
}
