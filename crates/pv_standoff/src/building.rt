//! The document of ranges in sorted order, built with a stack of open elements.

ghost use Rattle.std.specs.Prelude.{◌≡◌, ◌≤◌, ◌-◌, [], false, length, take, drop};
ghost use Rattle.std.specs.Prelude.{IfOk, IfErr, OnOk};
ghost use Rattle.std.specs.List.{AllByRecursion};
ghost use Rattle.pv_chars.specs.Texts.{joined, holds_close_mark};
ghost use Rattle.pv_chars.specs.Units.{AllUnits, units_in};
ghost use Rattle.pv_tree.specs.Legal.{MAX_DEPTH};
ghost use Rattle.pv_tree.specs.Plain.{depth_of};
ghost use Rattle.pv_tree.specs.PlainForms.{plain};
ghost use Rattle.pv_standoff.specs.Ranges.{AreSorted, NoneCrossLater, IsInsideText};
ghost use Rattle.pv_standoff.specs.Stacks.{write, add, bare_root, opened, tree_of, BuildRefuses};
ghost use Rattle.pv_standoff.specs.Texts.{SpellsUnits};
ghost use Rattle.pv_standoff.specs.PlainForms.{plain_open, seen, IsRootOver};

use crate::errors::NestError;
use crate::ranges::Range;
use crate::texts::{behind_units, text_of};
use pv_chars::{Bytes, NoMemory, Units, bytes_of};
use pv_tree::{End, Mark, Node, Nodes};
use std::alloc::Global;
use std::mem;

// How deep elements may stand, the root being at depth 1.
const DEEPEST: usize = 512;

// An element that is open: it begins before unit number `from`, has these kids so far, and will
// end before unit number `to`.
#[derive(Drop)]
struct Open {
    from: usize,
    to: usize,
    name: Bytes,
    kids: Nodes,
}

impl Open {
    // The element of a range, with nothing in it yet.
    fn of(alloc: Global, range: &Range) -> Result<Open, NoMemory>
        ensures { IfOk result (λ element. plain_open element ≡ opened range.now) }
    {
        Ok(Open {
            from: range.from as usize,
            to: range.to as usize,
            name: bytes_of(alloc, range.name.as_slice())?,
            kids: Vec::new(alloc),
        })
    }

    // A text of so many units at the front of what is left goes after the kids, if there are any.
    // Gives what is left then.
    fn write<'a>(
        &mut self,
        alloc: Global,
        rest: &'a [u8],
        count: usize,
    ) -> Result<&'a [u8], NoMemory>
        requires units { SpellsUnits rest.now (units_in rest.now) }
        requires within { count ≤ length (units_in rest.now) }
        ensures kids { OnOk result (plain_open self.new
            ≡ write (plain_open self.old) (take count (units_in rest.now))) }
        ensures left { IfOk result (λ more. more.now ≡ joined (drop count (units_in rest.now))) }
    {
        let more = behind_units(rest, count);
        if count > 0 {
            let part = rest.split_at(rest.len() - more.len()).0;
            let units = text_of(alloc, part)?;
            self.kids.push(Node::Text(units))?;
        }
        Ok(more)
    }

    // The element, with room for just its kids.
    fn into_node(self, alloc: Global) -> Node
        ensures { plain result ≡ tree_of (plain_open self) }
    {
        let mut kids = self.kids;
        kids.shrink_to_fit();
        Node::Elem {
            name: self.name,
            attrs: Bytes::of(Vec::new(alloc)),
            end: End::Tagged(Bytes::of(Vec::new(alloc))),
            kids,
            mark: Mark::BLANK,
        }
    }
}

// The innermost open element gets so many units at the front of what is left, and becomes a kid of
// the next, which is the innermost one then. Gives what is left then.
fn close<'a>(
    alloc: Global,
    rest: &'a [u8],
    count: usize,
    next: Open,
    top: &mut Open,
) -> Result<&'a [u8], NoMemory>
    requires units { SpellsUnits rest.now (units_in rest.now) }
    requires within { count ≤ length (units_in rest.now) }
    ensures kids { OnOk result (plain_open top.new ≡ add (plain_open next)
        (tree_of (write (plain_open top.old) (take count (units_in rest.now))))) }
    ensures left { IfOk result (λ more. more.now ≡ joined (drop count (units_in rest.now))) }
{
    let more = top.write(alloc, rest, count)?;
    let ended = mem::replace(top, next);
    top.kids.push(ended.into_node(alloc))?;
    Ok(more)
}

// Puts the text and an element for each range into the root, which alone is open, and is so again
// at the end.
fn fill(
    alloc: Global,
    text: &Units,
    sorted: &[&Range],
    top: &mut Open,
    outer: &mut Vec<Open>,
) -> Result<(), NestError>
    requires inside { AllByRecursion (IsInsideText (length text.now)) (seen sorted.now) }
    requires in_order { AreSorted (seen sorted.now) }
    requires none_cross { NoneCrossLater (seen sorted.now) }
    requires no_close_mark { holds_close_mark text.now ≡ false }
    requires top { plain_open top.old ≡ bare_root top.old.name (length text.now) }
    requires alone { outer.old.items ≡ [] }
    ensures built { OnOk result (IsRootOver top.old.name text.now (seen sorted.now)
        (tree_of (plain_open top.new))) }
    ensures shallow { OnOk result (depth_of (tree_of (plain_open top.new)) ≤ MAX_DEPTH) }
    ensures units { OnOk result (AllUnits text.now) }
    ensures refused { IfErr result (BuildRefuses text.now (seen sorted.now)) }
{
    let mut at = 0;
    let mut rest = text.bytes();
    'each: for range in sorted {
        if outer.len() >= DEEPEST {
            return Err(NestError::Deep);
        }
        let from = range.from as usize;
        'ended: while top.to <= from {
            let Some(next) = outer.pop() else {
                break;
            };
            let to = top.to;
            let more = close(alloc, rest, to - at, next, top)?;
            rest = more;
            at = to;
        }
        rest = top.write(alloc, rest, from - at)?;
        at = from;
        let opened = Open::of(alloc, range)?;
        outer.push(mem::replace(top, opened))?;
    }
    if outer.len() >= DEEPEST {
        return Err(NestError::Deep);
    }
    'left: while let Some(next) = outer.pop() {
        let to = top.to;
        let more = close(alloc, rest, to - at, next, top)?;
        rest = more;
        at = to;
    }
    top.write(alloc, rest, text.len() - at)?;
    Ok(())
}

/// The root of the document that holds the text, with the spans of these ranges.
pub(crate) fn build(
    alloc: Global,
    root: Bytes,
    text: &Units,
    sorted: &[&Range],
) -> Result<Node, NestError>
    requires inside { AllByRecursion (IsInsideText (length text.now)) (seen sorted.now) }
    requires in_order { AreSorted (seen sorted.now) }
    requires none_cross { NoneCrossLater (seen sorted.now) }
    requires no_close_mark { holds_close_mark text.now ≡ false }
    ensures built { IfOk result (λ node.
        IsRootOver root text.now (seen sorted.now) (plain node)) }
    ensures shallow { IfOk result (λ node. depth_of (plain node) ≤ MAX_DEPTH) }
    ensures units { IfOk result (λ _. AllUnits text.now) }
    ensures refused { IfErr result (BuildRefuses text.now (seen sorted.now)) }
{
    let mut top = Open {
        from: 0,
        to: text.len(),
        name: root,
        kids: Vec::new(alloc),
    };
    let mut outer = Vec::new(alloc);
    fill(alloc, text, sorted, &mut top, &mut outer)?;
    Ok(top.into_node(alloc))
}
