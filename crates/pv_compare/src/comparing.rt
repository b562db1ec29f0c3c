//! A document without the tags of marked elements, compared with another by their events.

ghost use Rattle.std.specs.Prelude.{◌≡◌, ◌≤◌, ◌<◌, ◌^◌, ◌↔◌, [], IfOk, IfErr, IsTrue, length, map};
ghost use Rattle.std.specs.Prelude.{List, true, ℕ, ◌⊎◌};
ghost use Rattle.pv_tree.specs.Marks.{blank_mark};
ghost use Rattle.pv_tree.specs.Plain.{PlainDoc};
ghost use Rattle.pv_tree.specs.PlainDocs.{plain_doc};
ghost use Rattle.pv_tree.specs.declared.nodes.Mark.{Mark};
ghost use Rattle.pv_read.specs.Errors.{Refuses};
ghost use Rattle.pv_read.specs.Meaning.{DocumentMeansWithin};
ghost use Rattle.pv_flat.specs.ComingEvents.{MAX_FLAT_BYTES as MAX_BYTES, flat_limits};
ghost use Rattle.pv_flat.specs.Plain.{plain_event};
ghost use Rattle.pv_compare.specs.EventComparison.{IsBodyRead};
ghost use Rattle.pv_compare.specs.Kept.{IsBodyText, KeepsDocument};
ghost use Rattle.pv_compare.specs.LeftOut.{LeavesEvents};

use crate::laws::events_leave_out_law;
use crate::reading::{EventParts, note};
use crate::tags::Tags;
use crate::trees::parts_of;
use crate::wanted::Wanted;
use pv_chars::NoMemory;
use pv_flat::{Event, Events, MAX_FLAT_BYTES};
use pv_read::DocError;
use pv_read::laws::{agreement_law, one_meaning_law};
use pv_tree::Doc;
use std::alloc::Global;

/// How far events were compared: where the tags of marked elements are left out of the one
/// document, what is still wanted of the other, and whether all was the same.
#[derive(Drop)]
pub struct Comparison<'a> {
    pub tags: Tags<'a>,
    pub wanted: Wanted<'a>,
    pub same: bool,
}

/// Of each element of a document whether it has no attribute bytes, whether the document's events
/// without the tags of marked elements are those of another, and the bytes before its root and
/// after it.
#[derive(Drop)]
pub struct Compared<'a> {
    pub plain: Vec<bool>,
    pub leaves: bool,
    pub before: &'a [u8],
    pub after: &'a [u8],
}

impl<'a> Comparison<'a> {
    ghost use Rattle.pv_compare.specs.EventComparison.{IsPast, ComparesBy};
    ghost use Rattle.std.specs.Prelude.{List, ℕ};
    ghost use Rattle.pv_flat.specs.Plain.{PlainEvent};

    /// At the start, with these marks, where these are the events of the other document.
    fn new(alloc: Global, marks: &'a [u32], events: &'a [Event<'a>]) -> Comparison<'a>
        ensures past { IsPast marks.now (map plain_event events.now) [] result }
        ensures next { result.tags.next ≡ 0 }
    {
        Comparison {
            tags: Tags::new(alloc, marks),
            wanted: Wanted { text: b"", events },
            same: true,
        }
    }

    // Takes an event of the one document.
    fn take(&mut self, event: &Event<'_>) -> Result<(), NoMemory>
        requires { self.old.tags.next < 2 ^ 63 }
        ensures { IfOk result (λ _. ComparesBy (plain_event event.now) self.old self.new) }
    {
        let stays = self.tags.pass(event)?;
        if stays && self.same {
            self.same = self.wanted.take(event);
        }
        Ok(())
    }

    // Whether nothing is left of either document, nor of the marks.
    fn is_whole(&mut self) -> bool
        ensures { (marks : List ℕ) (other given : List PlainEvent) →
            IsPast marks other given self.old →
            IsTrue result ↔ LeavesEvents marks given other }
    {
        self.same && self.tags.marks.is_empty() && self.wanted.is_none()
    }
}

impl<'a> Compared<'a> {
    ghost use Rattle.pv_compare.specs.EventComparison.{AgreesWith, IsCompared};

    // The document that the bytes are without the tags of marked elements, compared with these
    // events.
    fn of(
        alloc: Global,
        root: &[u8],
        bytes: &'a [u8],
        marks: &[u32],
        other: &[Event<'_>],
    ) -> Result<Compared<'a>, DocError>
        ensures compared { IfOk result (λ found.
            IsCompared root.now bytes.now marks.now (map plain_event other.now) found) }
        ensures refused { IfErr result (λ error.
            Refuses (DocumentMeansWithin flat_limits blank_mark root.now bytes.now) error) }
    {
        if bytes.len() > MAX_FLAT_BYTES {
            return Err(DocError::Limit);
        }
        let mut events = Events::new(alloc, bytes, root)?;
        let mut comparison = Comparison::new(alloc, marks, other);
        let mut plain = Vec::new(alloc);
        'events: while let Some(event) = events.next()? {
            note(&mut plain, &event)?;
            comparison.take(&event)?;
        }
        Ok(Compared {
            plain,
            leaves: comparison.is_whole(),
            before: events.before(),
            after: events.rest(),
        })
    }

    // Whether the other document, by its parts, is what is left of this one.
    fn agrees(&self, parts: &EventParts<'_>) -> bool
        ensures { IsTrue result ↔ AgreesWith self.now parts.now }
    {
        self.leaves && self.before == parts.before && self.after == parts.after
    }
}

/// Whether the second document, of any depth, is the first one with the tags of the marked elements
/// put in, and nothing else.
///
/// Each is read here; an error, but for want of memory, tells why one of them isn't the text of a
/// document.
pub fn is_kept(
    alloc: Global,
    root: &[u8],
    doc: &[u8],
    body: &[u8],
    marks: &[u32],
) -> Result<bool, DocError>
    requires { length body.now ≤ MAX_BYTES }
    ensures kept { IfOk result (λ kept. (d b : PlainDoc Mark) → IsBodyText root.now doc.now d →
        IsBodyText root.now body.now b → IsTrue kept ↔ KeepsDocument d b marks.now) }
    ensures refused { IfErr result (λ error.
        Refuses (DocumentMeansWithin flat_limits blank_mark root.now doc.now) error ⊎
        Refuses (DocumentMeansWithin flat_limits blank_mark root.now body.now) error) }
{
    let parts = EventParts::of(alloc, root, doc)?;
    let found = Compared::of(alloc, root, body, marks, &parts.events)?;
    agreement_law();
    one_meaning_law();
    events_leave_out_law();
    Ok(found.agrees(&parts))
}

/// What one reading of a body tells: of each of its elements, in document order, whether it has no
/// attribute bytes, and whether it is a document with the tags of marked elements put in, and
/// nothing else.
#[derive(Debug, Drop)]
pub struct BodyRead {
    pub plain: Vec<bool>,
    pub kept: bool,
}

/// Reads a body of any depth once, beside the tree of a document: of each of its elements, in
/// document order, whether it has no attribute bytes, and what `is_kept` tells where these are
/// marks.
///
/// An error, but for want of memory, tells why the bytes aren't the text of a document; a fault
/// anywhere in the bytes comes before any answer.
pub fn read_body(
    alloc: Global,
    root: &[u8],
    doc: &Doc,
    body: &[u8],
    marks: &[u32],
) -> Result<BodyRead, DocError>
    ensures read { IfOk result (λ read. IsBodyRead root.now body.now read.plain.items) }
    ensures kept { (bytes : List ℕ) → IsBodyText root.now bytes (plain_doc doc.now) →
        IfOk result (λ read. (b : PlainDoc Mark) → IsBodyText root.now body.now b →
        IsTrue read.kept ↔ KeepsDocument (plain_doc doc.now) b marks.now) }
    ensures refused { IfErr result (λ error.
        Refuses (DocumentMeansWithin flat_limits blank_mark root.now body.now) error) }
{
    let parts = parts_of(alloc, doc)?;
    let found = Compared::of(alloc, root, body, marks, &parts.events)?;
    agreement_law();
    one_meaning_law();
    events_leave_out_law();
    let kept = found.agrees(&parts);
    Ok(BodyRead {
        plain: found.plain,
        kept,
    })
}
