//! The root element (XML 1.0, section 3.1).

ghost use Rattle.std.specs.Prelude.{◌≤◌, ◌<◌, ◌+◌, ◌^◌, [], ℕ, List, length, IfOk, IfErr};
ghost use Rattle.pv_tree.specs.PlainForms.{plain};
ghost use Rattle.pv_tree.specs.Marks.{blank_mark};
ghost use Rattle.pv_read.specs.Left.{in_content, in_epilog, just_opened};
ghost use Rattle.pv_read.specs.Meaning.{DocumentRestMeans};
ghost use Rattle.pv_read.specs.Errors.{Refuses};
ghost use Rattle.pv_read.specs.Steps.{LeadsBehind};
ghost use Rattle.pv_read.specs.OpenElements.{left_in};
ghost use Rattle.pv_read.specs.Contents.{IsStep};

use crate::errors::DocError;
use crate::faults::next_item;
use crate::forms::Tag;
use crate::open::OpenElements;
use crate::texts::text_at;
use pv_tree::Node;
use std::alloc::Global;

// Reads one item after so many: the root, where it is whole then, and what stands after the item.
fn read_item<'a>(
    alloc: Global,
    most_depth: Option<usize>,
    root: &[u8],
    elements: &mut OpenElements<'a>,
    rest: &'a [u8],
    count: u64,
) -> Result<(Option<Node>, &'a [u8]), DocError>
    ensures step { IfOk result (λ r. IsStep most_depth root.now elements.old rest.now elements.new
        r.0 r.1.now) }
    ensures refused { IfErr result (λ e. (before : List ℕ) →
        Refuses (DocumentRestMeans most_depth blank_mark root.now count
        (left_in before elements.old) rest.now) e) }
    ensures within { IfOk result (λ r. length r.1.now < length rest.now) }
{
    if let Some((text, more)) = text_at(alloc, rest)? {
        elements.add_kid(Node::Text(text))?;
        return Ok((None, more));
    }
    let (item, more) = next_item(most_depth, &elements.place(), root, rest, count)?;
    let whole = elements.add(alloc, &item)?;
    Ok((whole, more))
}

/// The root that a start tag opens, what stands after it, and the number of items up to its end,
/// where so many stand up to the tag's.
pub fn read_content<'a>(
    alloc: Global,
    most_depth: Option<usize>,
    root: &[u8],
    tag: &Tag<'a>,
    bytes: &'a [u8],
    first: u64,
) -> Result<(Node, &'a [u8], u64), DocError>
    requires { first + length bytes.now < 2 ^ 64 }
    ensures read { IfOk result (λ r. (before : List ℕ) →
        LeadsBehind most_depth blank_mark root.now first
        (in_content before (just_opened tag.now.name.now tag.now.attrs.now) []) bytes.now
        r.2 (in_epilog before (plain r.0) []) r.1.now) }
    ensures refused { IfErr result (λ e. (before : List ℕ) →
        Refuses (DocumentRestMeans most_depth blank_mark root.now first
        (in_content before (just_opened tag.now.name.now tag.now.attrs.now) []) bytes.now) e) }
    ensures few { IfOk result (λ r. r.2 + length r.1.now ≤ first + length bytes.now) }
{
    let mut elements = OpenElements::of(alloc, tag);
    let mut rest = bytes;
    let mut count = first;
    'items: loop {
        let (whole, more) = read_item(alloc, most_depth, root, &mut elements, rest, count)?;
        count += 1;
        rest = more;
        if let Some(node) = whole {
            return Ok((node, rest, count));
        }
    }
}
