//! Lowering the sizes found so far by the rules, until the rules lower none.

ghost use Rattle.std.specs.Prelude.{ℕ, ◌≡◌, ◌≤◌, ◌+◌, ◌<◌, ◌^◌, IsTrue, length};
ghost use Rattle.pv_dtd.specs.Plain.{parts_in_models};
ghost use Rattle.pv_dtd.specs.PlainForms.{plain_dtd};
ghost use Rattle.pv_rules.specs.Sites.{name_site, part_site, rest_site};
ghost use Rattle.pv_productive.specs.PlainForms.{table_of};
ghost use Rattle.pv_productive.specs.Tables.{AreNamesSettled, ArePartsSettled, IsAttained};
ghost use Rattle.pv_productive.specs.Tables.{IsLowering, IsSettled, IsSettledAt, sum_in};

use crate::layout::Layout;
use crate::sizes::{Sizes, cut, lower};
use crate::sums::{size_of_part, sum_of_name, sum_of_rest};
use pv_rules::Site;

/// Lowers the size of a part, where the rules give less, and tells whether they do.
fn lower_part(layout: &Layout, number: u32, sizes: &mut Sizes) -> bool
    requires attained { IsAttained (plain_dtd layout.now.dtd) (table_of sizes.old) }
    requires within { number < parts_in_models (plain_dtd layout.now.dtd).models }
    ensures { IsLowering (plain_dtd layout.now.dtd)
        (λ t. IsSettledAt (plain_dtd layout.now.dtd) t (part_site number))
        (table_of sizes.old) (table_of sizes.new) result }
{
    let size = cut(u64::from(size_of_part(layout, sizes, number)));
    lower(&mut sizes.parts, number, size)
}

/// Lowers the size of the members of a sequence from this one on.
fn lower_rest(layout: &Layout, number: u32, sizes: &mut Sizes) -> bool
    requires attained { IsAttained (plain_dtd layout.now.dtd) (table_of sizes.old) }
    requires within { number < parts_in_models (plain_dtd layout.now.dtd).models }
    ensures { IsLowering (plain_dtd layout.now.dtd)
        (λ t. IsSettledAt (plain_dtd layout.now.dtd) t (rest_site number))
        (table_of sizes.old) (table_of sizes.new) result }
{
    let size = cut(sum_of_rest(layout, sizes, number));
    lower(&mut sizes.rests, number, size)
}

/// Lowers the size of an element of a name.
fn lower_name(layout: &Layout, name: u32, sizes: &mut Sizes) -> bool
    requires attained { IsAttained (plain_dtd layout.now.dtd) (table_of sizes.old) }
    requires within { name < length (plain_dtd layout.now.dtd).names }
    ensures { IsLowering (plain_dtd layout.now.dtd)
        (λ t. IsSettledAt (plain_dtd layout.now.dtd) t (name_site name))
        (table_of sizes.old) (table_of sizes.new) result }
{
    let size = cut(sum_of_name(layout, sizes, name));
    lower(&mut sizes.names, name, size)
}

/// Lowers the sizes of the parts from number `first` up to `end`, which is left out. What is within
/// a part has higher numbers, and so have the members after it; so the last part comes first.
fn lower_parts(layout: &Layout, first: u32, end: u32, sizes: &mut Sizes) -> bool
    requires attained { IsAttained (plain_dtd layout.now.dtd) (table_of sizes.old) }
    requires within { end ≤ parts_in_models (plain_dtd layout.now.dtd).models }
    ensures { IsLowering (plain_dtd layout.now.dtd)
        (ArePartsSettled (plain_dtd layout.now.dtd) first end)
        (table_of sizes.old) (table_of sizes.new) result }
{
    let mut changed = false;
    for number in (first..end).rev() {
        let part = lower_part(layout, number, sizes);
        let rest = lower_rest(layout, number, sizes);
        changed = changed | (part | rest);
    }
    changed
}

/// Lowers the sizes of all names.
fn lower_names(layout: &Layout, sizes: &mut Sizes) -> bool
    requires { IsAttained (plain_dtd layout.now.dtd) (table_of sizes.old) }
    ensures { IsLowering (plain_dtd layout.now.dtd)
        (AreNamesSettled (plain_dtd layout.now.dtd) 0 (length (plain_dtd layout.now.dtd).names))
        (table_of sizes.old) (table_of sizes.new) result }
{
    let mut changed = false;
    for name in (0..layout.dtd().names()).rev() {
        changed = changed | lower_name(layout, name, sizes);
    }
    changed
}

/// Lowers the sizes of all sites of the DTD, each once.
pub fn lower_all(layout: &Layout, sizes: &mut Sizes) -> bool
    requires { IsAttained (plain_dtd layout.now.dtd) (table_of sizes.old) }
    ensures { IsLowering (plain_dtd layout.now.dtd)
        (IsSettled (plain_dtd layout.now.dtd))
        (table_of sizes.old) (table_of sizes.new) result }
{
    let parts = lower_parts(layout, 0, layout.dtd().parts(), sizes);
    let names = lower_names(layout, sizes);
    parts | names
}

/// Lowers the size of one site. A content has no size of its own, and a site that the DTD hasn't
/// has none.
pub fn lower_site(layout: &Layout, site: Site, sizes: &mut Sizes) -> bool
    requires { IsAttained (plain_dtd layout.now.dtd) (table_of sizes.old) }
    ensures attained { IsAttained (plain_dtd layout.now.dtd) (table_of sizes.new) }
    ensures less { IsTrue result → sum_in (table_of sizes.new) < sum_in (table_of sizes.old) }
    ensures most { sum_in (table_of sizes.new) ≤ sum_in (table_of sizes.old) }
{
    match site {
        Site::Name(id) if id.0 < layout.dtd().names() => lower_name(layout, id.0, sizes),
        Site::Part(number) if number < layout.dtd().parts() => lower_part(layout, number, sizes),
        Site::Rest(number) if number < layout.dtd().parts() => lower_rest(layout, number, sizes),
        Site::Name(_) | Site::Content(_) | Site::Part(_) | Site::Rest(_) => false,
    }
}
