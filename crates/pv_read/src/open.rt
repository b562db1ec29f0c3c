//! The elements that are open: their tags and their kids so far (XML 1.0, section 3.1).

ghost use Rattle.std.specs.Prelude.{◌≡◌, ℕ, List, [], ◌∷◌, IsTrue, OnOk, IfOk, Some};
ghost use Rattle.pv_tree.specs.Plain.{tagged, element};
ghost use Rattle.pv_tree.specs.PlainForms.{plain, forest};
ghost use Rattle.pv_tree.specs.Marks.{blank_mark};
ghost use Rattle.pv_read.specs.Left.{left_by, just_opened, with_kid, empty_element};
ghost use Rattle.pv_read.specs.Left.{closed_element, joined_to};
ghost use Rattle.pv_read.specs.PlainItems.{plain_item};
ghost use Rattle.pv_read.specs.PlainPlaces.{plain_place};
ghost use Rattle.pv_read.specs.Places.{place_reached};
ghost use Rattle.pv_read.specs.OpenElements.{plain_open, opens_of, left_in, left_after, is_markup};

use crate::forms::{Item, Tag};
use crate::places::Place;
use pv_chars::{NoMemory, bytes_of};
use pv_tree::{End, Mark, Node, Nodes};
use std::alloc::Global;
use std::mem;

/// The most kids of an element that are moved into a vector of their own.
const FEW_KIDS: usize = 64;

/// An open element, by its start tag, with its kids so far.
#[derive(Drop)]
pub struct OpenElement<'a> {
    pub name: &'a [u8],
    pub attrs: &'a [u8],
    pub kids: Nodes,
}

impl<'a> OpenElement<'a> {
    /// The element that a start tag opens, whose kids come into this vector.
    fn of(tag: &Tag<'a>, kids: Nodes) -> OpenElement<'a>
        requires { kids.items ≡ [] }
        ensures { plain_open result ≡ just_opened tag.now.name.now tag.now.attrs.now }
    {
        OpenElement {
            name: tag.name,
            attrs: tag.attrs,
            kids,
        }
    }
}

/// The element of an empty-element tag.
pub fn empty_element(alloc: Global, tag: &Tag<'_>) -> Result<Node, NoMemory>
    ensures { IfOk result (λ node. plain node
        ≡ empty_element blank_mark tag.now.name.now tag.now.attrs.now) }
{
    Ok(Node::Elem {
        name: bytes_of(alloc, tag.name)?,
        attrs: bytes_of(alloc, tag.attrs)?,
        end: End::Short,
        kids: Vec::new(alloc),
        mark: Mark::BLANK,
    })
}

// The element of a tag and an end tag with these kids and this white space.
fn tagged_element(
    alloc: Global,
    name: &[u8],
    attrs: &[u8],
    kids: Nodes,
    gap: &[u8],
) -> Result<Node, NoMemory>
    ensures { IfOk result (λ node. plain node
        ≡ element name.now attrs.now (tagged gap.now) (forest kids.items) blank_mark) }
{
    Ok(Node::Elem {
        name: bytes_of(alloc, name)?,
        attrs: bytes_of(alloc, attrs)?,
        end: End::Tagged(bytes_of(alloc, gap)?),
        kids,
        mark: Mark::BLANK,
    })
}

// An empty vector, with room that was used before where there is some.
fn no_kids(alloc: Global, rooms: &mut Vec<Nodes>) -> Nodes
    ensures { result.items ≡ [] }
{
    let Some(mut room) = rooms.pop() else {
        return Vec::new(alloc);
    };
    room.clear();
    room
}

// These kids, with no more room than they take. A few are moved, so that other kids can have
// their room.
fn exact_kids(alloc: Global, kids: Nodes, rooms: &mut Vec<Nodes>) -> Result<Nodes, NoMemory>
    ensures { IfOk result (λ exact. exact.items ≡ kids.items) }
{
    let mut room = kids;
    if room.len() > FEW_KIDS {
        room.shrink_to_fit();
        return Ok(room);
    }
    let mut exact = Vec::with_capacity(alloc, room.len())?;
    exact.append(&mut room)?;
    rooms.push(room)?;
    Ok(exact)
}

/// The innermost open element, and those around it, outermost first.
#[derive(Drop)]
pub struct OpenElements<'a> {
    pub inner: OpenElement<'a>,
    pub outer: Vec<OpenElement<'a>>,
    // Vectors that held kids of elements that ended, for those of elements to come.
    rooms: Vec<Nodes>,
}

impl<'a> OpenElements<'a> {
    /// The root alone, which this tag opens.
    pub fn of(alloc: Global, tag: &Tag<'a>) -> OpenElements<'a>
        ensures inner { plain_open result.inner ≡ just_opened tag.now.name.now tag.now.attrs.now }
        ensures outer { result.outer.items ≡ [] }
    {
        OpenElements {
            inner: OpenElement::of(tag, Vec::new(alloc)),
            outer: Vec::new(alloc),
            rooms: Vec::new(alloc),
        }
    }

    /// Where the next item stands.
    pub fn place(&self) -> Place<'a>
        ensures { (before : List ℕ) → place_reached (left_in before self.now) ≡ plain_place result }
    {
        Place::Content(self.inner.name, self.outer.len() + 1)
    }

    /// One more kid of the innermost open element.
    pub fn add_kid(&mut self, kid: Node) -> Result<(), NoMemory>
        ensures inner { OnOk result (plain_open self.new.inner
            ≡ with_kid (plain_open self.old.inner) (plain kid)) }
        ensures outer { OnOk result (self.new.outer.items ≡ self.old.outer.items) }
    {
        self.inner.kids.push(kid)?;
        Ok(())
    }

    // One more open element, the innermost.
    fn open(&mut self, alloc: Global, tag: &Tag<'a>) -> Result<(), NoMemory>
        ensures inner { OnOk result (plain_open self.new.inner
            ≡ just_opened tag.now.name.now tag.now.attrs.now) }
        ensures outer { OnOk result (opens_of self.new.outer.items ≡ plain_open self.old.inner
            ∷ opens_of self.old.outer.items) }
    {
        let kids = no_kids(alloc, &mut self.rooms);
        let around = mem::replace(&mut self.inner, OpenElement::of(tag, kids));
        self.outer.push(around)?;
        Ok(())
    }

    // The innermost open element ends: it is a kid of the one around it, or the root.
    fn close(&mut self, alloc: Global, gap: &[u8]) -> Result<Option<Node>, NoMemory>
        ensures { IfOk result (λ root. (before : List ℕ) → left_after before self.new root ≡
            joined_to before (opens_of self.old.outer.items)
            (closed_element blank_mark (plain_open self.old.inner) gap.now)) }
    {
        let kids = mem::replace(&mut self.inner.kids, Vec::new(alloc));
        let kids = exact_kids(alloc, kids, &mut self.rooms)?;
        let element = tagged_element(alloc, self.inner.name, self.inner.attrs, kids, gap)?;
        let Some(around) = self.outer.pop() else {
            return Ok(Some(element));
        };
        self.inner = around;
        self.add_kid(element)?;
        Ok(None)
    }

    /// What an item that may stand here leaves: the root, where it is whole.
    pub fn add(&mut self, alloc: Global, item: &Item<'a>) -> Result<Option<Node>, NoMemory>
        requires { IsTrue (is_markup (plain_item item.now)) }
        ensures { IfOk result (λ root. (before : List ℕ) →
            left_by blank_mark (left_in before self.old) (plain_item item.now)
            ≡ Some (left_after before self.new root)) }
    {
        match item {
            Item::StartTag(tag) => self.open(alloc, tag)?,
            Item::EmptyTag(tag) => self.add_kid(empty_element(alloc, tag)?)?,
            Item::CommentOrInstruction(bytes) => self.add_kid(Node::Misc(bytes_of(alloc, bytes)?))?,
            Item::CdataSection(bytes) => self.add_kid(Node::Cdata(bytes_of(alloc, bytes)?))?,
            Item::EndTag { gap, .. } => return self.close(alloc, gap),
            Item::XmlDeclaration(_) | Item::Doctype { .. } | Item::TextRun(_) => unreachable!(),
        }
        Ok(None)
    }
}
