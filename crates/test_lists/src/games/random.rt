//! Moves at random.

use pv_chars::bytes_of;
use pv_edit::{Edit, kid_path};
use pv_script::Command;
use pv_session::Session;
use pv_tree::{Node, Path};
use std::alloc::Global;
use std::test::Fail;

/// Numbers at random, by a linear congruential generator.
#[derive(Drop)]
pub struct Random {
    pub state: u32,
}

impl Random {
    /// A number below the bound; 0 where that is 0.
    pub fn below(&mut self, bound: u32) -> u32 {
        self.state = self
            .state
            .wrapping_mul(1_664_525)
            .wrapping_add(1_013_904_223);
        if bound == 0 {
            return 0;
        }
        (self.state >> 16) % bound
    }

    /// One of the items.
    pub fn pick<'a, T>(&mut self, items: &'a [T]) -> Result<&'a T, Fail> {
        let at = self.below(u32::try_from(items.len())?);
        Ok(items.get(at as usize).ok_or("nothing to pick from")?)
    }
}

const TEXTS: &[&str] = &["x", " ", "]]", ">", "&#32;", "é&amp;", "Tea, too"];

// An edit that puts something into a list with so many kids.
fn put(
    alloc: Global,
    random: &mut Random,
    path: Path,
    count: u32,
    names: &[&str],
) -> Result<Edit, Fail> {
    let at = random.below(count.saturating_add(1));
    let name = bytes_of(alloc, random.pick(names)?.as_bytes())?;
    Ok(match random.below(6) {
        0 | 1 | 2 => Edit::Wrap {
            path,
            from: at,
            to: count.min(at.saturating_add(random.below(3))),
            name,
        },
        3 => Edit::Insert { path, at, name },
        _ => Edit::AddText {
            path,
            at,
            text: bytes_of(alloc, random.pick(TEXTS)?.as_bytes())?,
        },
    })
}

// An edit of an element.
fn edit_element(
    alloc: Global,
    random: &mut Random,
    path: Path,
    names: &[&str],
) -> Result<Edit, Fail> {
    if random.below(2) == 0 {
        return Ok(Edit::Unwrap { path });
    }
    let name = bytes_of(alloc, random.pick(names)?.as_bytes())?;
    Ok(Edit::Rename { path, name })
}

// An edit of a text.
fn edit_text(alloc: Global, random: &mut Random, path: Path) -> Result<Edit, Fail> {
    Ok(match random.below(4) {
        0 => Edit::Split {
            path,
            at: random.below(4),
        },
        1 => Edit::Join { path },
        2 => Edit::SetText {
            path,
            text: bytes_of(alloc, random.pick(TEXTS)?.as_bytes())?,
        },
        _ => Edit::DelText { path },
    })
}

// An edit of the document, by these names. Most suit their place.
fn random_edit(
    alloc: Global,
    random: &mut Random,
    session: &Session,
    names: &[&str],
) -> Result<Edit, Fail> {
    let rows = session.verdict_rows()?;
    let row = random.pick(rows.as_slice())?;
    let kids = session.doc().kids_at(&row.path).ok_or("no list")?;
    let count = u32::try_from(kids.len())?;
    if random.below(2) == 0 {
        let path = Path::new(alloc, row.path.places())?;
        return put(alloc, random, path, count, names);
    }
    let at = random.below(count);
    let path = kid_path(alloc, &row.path, at)?;
    match kids.get(at as usize) {
        Some(Node::Elem { .. }) => edit_element(alloc, random, path, names),
        _ => edit_text(alloc, random, path),
    }
}

/// A move of the session, by these names.
pub fn random_move(
    alloc: Global,
    random: &mut Random,
    session: &Session,
    names: &[&str],
) -> Result<Command, Fail> {
    match random.below(12) {
        0 | 1 => Ok(Command::Undo),
        2 => Ok(Command::Redo),
        _ => Ok(Command::Edit(random_edit(alloc, random, session, names)?)),
    }
}
