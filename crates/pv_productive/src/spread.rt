//! Finding all sizes in the order of their size, each once (Knuth, "A generalization of Dijkstra's
//! algorithm", 1977): what is made from one size, or from a sum, is known with it; a choice is known
//! with its least member.

ghost use Rattle.std.specs.Prelude.{◌≤◌, OnOk};
ghost use Rattle.pv_dtd.specs.PlainForms.{plain_dtd};
ghost use Rattle.pv_productive.specs.PlainForms.{table_of};
ghost use Rattle.pv_productive.specs.Tables.{IsAttained};
ghost use Rattle.pv_productive.specs.Turns.{turns_left};

use crate::layout::Layout;
use crate::links::Links;
use crate::lowering::{lower_all, lower_site};
use crate::sizes::{NO_SIZE, Sizes};
use crate::waiting::Waiting;
use pv_chars::NoMemory;
use pv_rules::{Kind, Site};
use std::alloc::Global;

/// The number of a site that is a choice.
fn choice_at(layout: &Layout, site: Site) -> Option<u32> {
    let Site::Part(number) = site else {
        return None;
    };
    match layout.part(number)?.kind {
        Kind::Choice => Some(number),
        Kind::Name(_) | Kind::Seq | Kind::Opt | Kind::Star | Kind::Plus => None,
    }
}

/// Lowers the size of a part, and of what is above it as far as that is lowered: up to a name, whose
/// mentions wait then, or to a choice, which waits.
fn climb(
    layout: &Layout,
    links: &Links,
    number: u32,
    sizes: &mut Sizes,
    waiting: &mut Waiting,
) -> Result<(), NoMemory>
    requires { IsAttained (plain_dtd layout.now.dtd) (table_of sizes.old) }
    ensures attained { IsAttained (plain_dtd layout.now.dtd) (table_of sizes.new) }
    ensures turns { OnOk result (turns_left (table_of sizes.new) waiting.new ≤
        turns_left (table_of sizes.old) waiting.old) }
{
    let mut site = Site::Part(number);
    while lower_site(layout, site, sizes) {
        if let Site::Name(id) = site {
            waiting.push_mentions(links, id.0)?;
            return Ok(());
        }
        let Some(above) = links.above(site) else {
            return Ok(());
        };
        if let Some(choice) = choice_at(layout, above) {
            waiting.push_choice(choice, sizes.of_site(site))?;
            return Ok(());
        }
        site = above;
    }
    Ok(())
}

/// Lowers the sizes of the parts that wait, each once, and those of what comes to wait with them.
fn climb_all(
    layout: &Layout,
    links: &Links,
    sizes: &mut Sizes,
    waiting: &mut Waiting,
) -> Result<(), NoMemory>
    requires { IsAttained (plain_dtd layout.now.dtd) (table_of sizes.old) }
    ensures { IsAttained (plain_dtd layout.now.dtd) (table_of sizes.new) }
{
    while let Some(number) = waiting.pop() {
        if sizes.of_part(number) == NO_SIZE {
            climb(layout, links, number, sizes, waiting)?;
        }
    }
    Ok(())
}

/// Lowers all sizes to the least, each once. What needs no element, or only itself, is found in one
/// pass over all sites.
pub fn spread(alloc: Global, layout: &Layout, sizes: &mut Sizes) -> Result<(), NoMemory>
    requires { IsAttained (plain_dtd layout.now.dtd) (table_of sizes.old) }
    ensures { IsAttained (plain_dtd layout.now.dtd) (table_of sizes.new) }
{
    lower_all(layout, sizes);
    let links = Links::of(alloc, layout)?;
    match Waiting::of(alloc, layout, &links, sizes) {
        Ok(mut waiting) => climb_all(layout, &links, sizes, &mut waiting),
        Err(error) => Err(error),
    }
}
