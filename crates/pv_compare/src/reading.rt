//! Documents of any depth, read by events.

ghost use Rattle.std.specs.Prelude.{◌≡◌, ◌++◌, IfOk, IfErr};
ghost use Rattle.pv_tree.specs.Marks.{blank_mark};
ghost use Rattle.pv_read.specs.Errors.{Refuses};
ghost use Rattle.pv_read.specs.Meaning.{DocumentMeansWithin};
ghost use Rattle.pv_flat.specs.ComingEvents.{flat_limits};
ghost use Rattle.pv_flat.specs.Plain.{plain_event};
ghost use Rattle.pv_compare.specs.ReadEvents.{is_plain_start};

use pv_chars::NoMemory;
use pv_flat::{Event, Events};
use pv_read::DocError;
use std::alloc::Global;

/// Notes of an event that begins an element whether that has no attribute bytes.
pub fn note(plain: &mut Vec<bool>, event: &Event<'_>) -> Result<(), NoMemory>
    ensures { IfOk result (λ _. plain.new.items ≡
        plain.old.items ++ is_plain_start (plain_event event.now)) }
{
    match event {
        Event::Start { attrs, .. } => {
            plain.push(attrs.is_empty())?;
            Ok(())
        }
        Event::Stop | Event::Text(_) | Event::Cdata(_) | Event::Misc(_) => Ok(()),
    }
}

/// A document by its events: the bytes before its root, the events, and the bytes after it.
#[derive(Drop)]
pub struct EventParts<'a> {
    pub before: &'a [u8],
    pub events: Vec<Event<'a>>,
    pub after: &'a [u8],
}

impl<'a> EventParts<'a> {
    ghost use Rattle.pv_compare.specs.EventComparison.{ArePartsOf};

    /// Those of the document that the bytes are.
    pub fn of(alloc: Global, root: &[u8], bytes: &'a [u8]) -> Result<EventParts<'a>, DocError>
        ensures read { IfOk result (λ parts. ArePartsOf root.now bytes.now parts) }
        ensures refused { IfErr result (λ error.
            Refuses (DocumentMeansWithin flat_limits blank_mark root.now bytes.now) error) }
    {
        let mut events = Events::new(alloc, bytes, root)?;
        let mut found = Vec::new(alloc);
        'events: while let Some(event) = events.next()? {
            found.push(event)?;
        }
        Ok(EventParts {
            before: events.before(),
            events: found,
            after: events.rest(),
        })
    }
}
