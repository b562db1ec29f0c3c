//! The least number of elements that the rules of the missing grammar give a site over no tokens,
//! by the sizes found so far.

ghost use Rattle.std.specs.Prelude.{◌≡◌, ◌+◌, ◌<◌, ◌^◌};
ghost use Rattle.pv_dtd.specs.PlainForms.{plain_dtd};
ghost use Rattle.pv_rules.specs.Sites.{content_site, name_site, part_site, rest_site};
ghost use Rattle.pv_productive.specs.PlainForms.{table_of};
ghost use Rattle.pv_productive.specs.Tables.{IsLeastMember, IsLeastSum, size_of};
ghost use Rattle.pv_model.specs.Plain.{PlainParts, choice};
ghost use Rattle.pv_rules.specs.Numbering.{IsChoiceAt, part_at};

use crate::layout::Layout;
use crate::sizes::{NO_SIZE, Sizes};
use pv_rules::{ContentKind, Kind, Membership};

/// The content of a name: none is needed but for element content.
fn content_size(layout: &Layout, sizes: &Sizes, name: u32) -> u32
    ensures { result ≡ size_of (plain_dtd layout.now.dtd) (table_of sizes.now) (content_site name) }
{
    let Some(content) = layout.content(name) else {
        return NO_SIZE;
    };
    match content.kind {
        ContentKind::Empty => 0,
        ContentKind::Any => 0,
        ContentKind::Mixed => 0,
        ContentKind::Children => sizes.of_part(content.first),
    }
}

/// An element of a name: itself, and what its content needs.
pub fn sum_of_name(layout: &Layout, sizes: &Sizes, name: u32) -> u64
    ensures { IsLeastSum (plain_dtd layout.now.dtd) (table_of sizes.now) (name_site name) result }
{
    1 + u64::from(content_size(layout, sizes, name))
}

/// The least of the members of a choice, which end before `end`.
fn least_member(layout: &Layout, sizes: &Sizes, number: u32, end: u32) -> u32
    requires { IsChoiceAt (plain_dtd layout.now.dtd) number end }
    ensures { (ps : PlainParts) → part_at (plain_dtd layout.now.dtd) number ≡ Some (choice ps) →
        IsLeastMember (plain_dtd layout.now.dtd) (table_of sizes.now) number ps result }
{
    let mut least = NO_SIZE;
    let mut member = number + 1;
    while member < end {
        least = least.min(sizes.of_part(member));
        member = layout.flat().end_of(member);
    }
    least
}

/// A part.
pub fn size_of_part(layout: &Layout, sizes: &Sizes, number: u32) -> u32
    requires { number + 1 < 2 ^ 32 }
    ensures { IsLeastSum (plain_dtd layout.now.dtd) (table_of sizes.now) (part_site number) result }
{
    let Some(part) = layout.part(number) else {
        return NO_SIZE;
    };
    match part.kind {
        Kind::Name(name) => sizes.of_name(name.0),
        Kind::Seq => sizes.of_rest(number + 1),
        Kind::Choice => least_member(layout, sizes, number, part.end),
        Kind::Opt => 0,
        Kind::Star => 0,
        Kind::Plus => sizes.of_part(number + 1),
    }
}

/// The members of a sequence from this one on; a part that is no such member has none.
pub fn sum_of_rest(layout: &Layout, sizes: &Sizes, number: u32) -> u64
    ensures { IsLeastSum (plain_dtd layout.now.dtd) (table_of sizes.now) (rest_site number) result }
{
    let Some(part) = layout.part(number) else {
        return u64::from(NO_SIZE);
    };
    let own = u64::from(sizes.of_part(number));
    match part.membership {
        Membership::Outside => u64::from(NO_SIZE),
        Membership::Last => own,
        Membership::Followed => own + u64::from(sizes.of_rest(part.end)),
    }
}
