//! Writes a document with tags of new elements in it.

ghost use Rattle.std.specs.Prelude.{[], IfOk, IsTrue, List, OnOk, drop, length};
ghost use Rattle.std.specs.Prelude.{◌↔◌, ◌≡◌, ◌≤◌};
ghost use Rattle.pv_dtd.specs.Plain.{spelling_of};
ghost use Rattle.pv_dtd.specs.PlainForms.{plain_dtd};
ghost use Rattle.pv_tree.specs.Plain.{Forest, no_trees, short, tree};
ghost use Rattle.pv_tree.specs.PlainDocs.{plain_doc};
ghost use Rattle.pv_tree.specs.PlainForms.{forest, plain, plain_end};
ghost use Rattle.pv_tree.specs.declared.nodes.Mark.{Mark};
ghost use Rattle.pv_write.specs.PieceForms.{plain_lists, plain_pieces};
ghost use Rattle.pv_write.specs.Pieces.{AwaitsNode, PlainPiece, after_node, is_token};
ghost use Rattle.pv_write.specs.TaggedTexts.{IsTaggedText, WritesAll, WritesUpTo, gap_of};
ghost use Rattle.pv_write.specs.WritingForms.{writing_of};

use crate::pieces::Piece;
use crate::tagged_text::{TaggedText, Writing};
use pv_chars::NoMemory;
use pv_dtd::Dtd;
use pv_model::NameId;
use pv_tree::{Doc, End, Node};
use std::alloc::Global;

// The bytes of a name; none where the DTD hasn't got it.
fn spelling(dtd: &Dtd, id: NameId) -> &[u8]
    ensures { result.now ≡ spelling_of (plain_dtd dtd.now) id.0 }
{
    if id.0 < dtd.names() {
        dtd.name_of(id)
    } else {
        &[]
    }
}

// Writes the tags up to the next piece that is a node's, from a place among pieces, and returns the
// place of that piece.
fn write_tags(
    dtd: &Dtd,
    pieces: &[Piece],
    from: usize,
    out: &mut Writing<'_>,
) -> Result<usize, NoMemory>
    requires { from ≤ length pieces.now }
    ensures within { IfOk result (λ to. to ≤ length pieces.now) }
    ensures awaits { IfOk result (λ to. AwaitsNode (plain_pieces (drop to pieces.now))) }
    ensures written { IfOk result (λ to. (k : Forest Mark) → WritesUpTo (plain_dtd dtd.now)
        (plain_pieces (drop from pieces.now)) k (plain_pieces (drop to pieces.now)) k
        (writing_of out.old) (writing_of out.new)) }
{
    for place in from..pieces.len() {
        match pieces[place] {
            Piece::Kept => return Ok(place),
            Piece::Start(id) => out.start_new(spelling(dtd, id))?,
            Piece::End(id) => out.end_new(spelling(dtd, id))?,
        }
    }
    Ok(pieces.len())
}

// The place of the piece after a node, where this place is next.
fn place_after(node: &Node, pieces: &[Piece], next: usize) -> usize
    requires { next ≤ length pieces.now }
    ensures within { result ≤ length pieces.now }
    ensures after { plain_pieces (drop result pieces.now)
        ≡ after_node (is_token (plain node.now)) (plain_pieces (drop next pieces.now)) }
{
    if node.has_token() && next < pieces.len() {
        next + 1
    } else {
        next
    }
}

// The bytes between the name of an element's end tag and its `>`.
fn gap_of(end: &End) -> &[u8]
    ensures { result.now ≡ gap_of (plain_end end.now) }
{
    match end {
        End::Short => &[],
        End::Tagged(gap) => gap.as_slice(),
    }
}

// Whether no tag comes first among pieces.
fn awaits_node(pieces: &[Piece]) -> bool
    ensures { IsTrue result ↔ AwaitsNode (plain_pieces pieces.now) }
{
    match pieces.first() {
        Some(Piece::Start(_)) => false,
        Some(Piece::End(_)) => false,
        Some(Piece::Kept) => true,
        None => true,
    }
}

// Whether an element stays an empty-element tag: it is one, and there is nothing to stand in it.
fn is_bare(end: &End, kids: &[Node], pieces: &[Piece]) -> bool
    ensures { IsTrue result ↔ ((plain_end end.now ≡ short) × (forest kids.now ≡ no_trees) ×
        AwaitsNode (plain_pieces pieces.now)) }
{
    if !kids.is_empty() {
        return false;
    }
    if !awaits_node(pieces) {
        return false;
    }
    match end {
        End::Short => true,
        End::Tagged(_) => false,
    }
}

// Writes a node, with the pieces of its lists.
#[cycle(tagging)]
fn write_node(dtd: &Dtd, node: &Node, out: &mut Writing<'_>) -> Result<(), NoMemory>
    ensures { OnOk result ((ps : List PlainPiece) (k : Forest Mark) → AwaitsNode ps →
        WritesUpTo (plain_dtd dtd.now) ps (tree (plain node.now) k)
        (after_node (is_token (plain node.now)) ps) k
        (writing_of out.old) (writing_of out.new)) }
{
    match node {
        Node::Elem {
            name,
            attrs,
            end,
            kids,
            ..
        } => {
            let pieces = out.take_pieces();
            if is_bare(end, kids, pieces) {
                return out.start_old(name.as_slice(), attrs.as_slice(), b"/>");
            }
            out.start_old(name.as_slice(), attrs.as_slice(), b">")?;
            write_list(dtd, pieces, kids, out)?;
            out.end_old(name.as_slice(), gap_of(end))
        }
        Node::Text(units) => out.bytes(units.bytes()),
        Node::Cdata(bytes) => out.bytes(bytes.as_slice()),
        Node::Misc(bytes) => out.bytes(bytes.as_slice()),
    }
}

// Writes nodes side by side, with the pieces of their list.
#[cycle(tagging)]
fn write_list(
    dtd: &Dtd,
    pieces: &[Piece],
    kids: &[Node],
    out: &mut Writing<'_>,
) -> Result<(), NoMemory>
    ensures { OnOk result (WritesAll (plain_dtd dtd.now) (plain_pieces pieces.now)
        (forest kids.now) (writing_of out.old) (writing_of out.new)) }
{
    let mut next = 0;
    for kid in kids {
        next = write_tags(dtd, pieces, next, out)?;
        write_node(dtd, kid, out)?;
        next = place_after(kid, pieces, next);
    }
    write_tags(dtd, pieces, next, out)?;
    Ok(())
}

/// The text of a document with the tags that the pieces of its lists put in. The lists are in
/// document order; one without pieces stays as it is. New elements are written as `<NAME>` and
/// `</NAME>`, and all else as it is, but that an empty-element tag that gets content becomes a pair
/// of tags. The one error is want of memory.
pub fn doc_with_tags(
    alloc: Global,
    dtd: &Dtd,
    lists: &[Vec<Piece>],
    doc: &Doc,
) -> Result<TaggedText, NoMemory>
    ensures { IfOk result (λ text. IsTaggedText (plain_dtd dtd.now) (plain_doc doc.now)
        (plain_lists lists.now) text.marks.items text.body.items) }
{
    let mut out = Writing::new(alloc, lists);
    let pieces = out.take_pieces();
    out.bytes(doc.before.as_slice())?;
    write_list(dtd, pieces, std::slice::from_ref(&doc.root), &mut out)?;
    out.bytes(doc.after.as_slice())?;
    let Writing { body, marks, .. } = out;
    Ok(TaggedText { body, marks })
}
