//! The events of a document that was read into a tree.

ghost use Rattle.std.specs.Prelude.{◌≡◌, ◌++◌, ◌∷◌, [], IfOk, OnOk, map};
ghost use Rattle.pv_tree.specs.PlainDocs.{plain_doc};
ghost use Rattle.pv_tree.specs.PlainForms.{plain, forest};
ghost use Rattle.pv_flat.specs.Plain.{events_of, events_of_all, plain_event};
ghost use Rattle.pv_compare.specs.EventComparison.{AreEventsOf};

use crate::reading::EventParts;
use pv_chars::NoMemory;
use pv_flat::Event;
use pv_tree::{Doc, Node};
use std::alloc::Global;

// Puts an event after others.
fn push<'a>(event: Event<'a>, events: &mut Vec<Event<'a>>) -> Result<(), NoMemory>
    ensures { OnOk result (map plain_event events.new.items ≡
        map plain_event events.old.items ++ plain_event event.entry ∷ []) }
{
    events.push(event)?;
    Ok(())
}

#[cycle(pushing)]
fn push_node<'a>(node: &'a Node, events: &mut Vec<Event<'a>>) -> Result<(), NoMemory>
    ensures { OnOk result (map plain_event events.new.items ≡
        map plain_event events.old.items ++ events_of (plain node.now)) }
{
    match node {
        Node::Elem {
            name,
            attrs,
            kids,
            ..
        } => {
            let start = Event::Start {
                name: name.as_slice(),
                attrs: attrs.as_slice(),
            };
            push(start, events)?;
            push_all(kids, events)?;
            push(Event::Stop, events)
        }
        Node::Text(units) => push(Event::Text(units.bytes()), events),
        Node::Cdata(bytes) => push(Event::Cdata(bytes.as_slice()), events),
        Node::Misc(bytes) => push(Event::Misc(bytes.as_slice()), events),
    }
}

#[cycle(pushing)]
fn push_all<'a>(nodes: &'a [Node], events: &mut Vec<Event<'a>>) -> Result<(), NoMemory>
    ensures { OnOk result (map plain_event events.new.items ≡
        map plain_event events.old.items ++ events_of_all (forest nodes.now)) }
{
    for node in nodes {
        push_node(node, events)?;
    }
    Ok(())
}

/// A document by its events, told of its tree.
pub fn parts_of(alloc: Global, doc: &Doc) -> Result<EventParts<'_>, NoMemory>
    ensures { IfOk result (λ parts. AreEventsOf (plain_doc doc.now) parts) }
{
    let mut events = Vec::new(alloc);
    push_node(&doc.root, &mut events)?;
    Ok(EventParts {
        before: doc.before.as_slice(),
        events,
        after: doc.after.as_slice(),
    })
}
