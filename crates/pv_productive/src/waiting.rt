//! Parts whose sizes can be told next, in the order of their sizes.

use crate::layout::Layout;
use crate::links::Links;
use crate::sizes::{NO_SIZE, Sizes};
use pv_chars::NoMemory;
use std::alloc::Global;
use std::cmp::Reverse;
use std::collections::BinaryHeap;

/// A choice, and the size of one of its members.
#[derive(Clone, Copy, Debug, PartialEq, Eq, PartialOrd, Ord)]
struct Offer {
    size: u32,
    choice: u32,
}

/// The parts that wait: mentions of names whose sizes are known, and choices. A choice waits until
/// its member's size is the least that is left, so that no smaller one can come to it.
#[derive(Drop)]
pub struct Waiting {
    ready: Vec<u32>,
    choices: BinaryHeap<Reverse<Offer>>,
    reached: u32,
}

impl Waiting {
    ghost use Rattle.std.specs.Prelude.{◌+◌, ◌^◌, ◌<◌, ◌≤◌, OnOk, OnSome};
    ghost use Rattle.pv_productive.specs.Turns.{parts_waiting};

    /// The mentions of all names that need no other element.
    pub fn of(
        alloc: Global,
        layout: &Layout,
        links: &Links,
        sizes: &Sizes,
    ) -> Result<Waiting, NoMemory> {
        let mut waiting = Waiting {
            ready: Vec::new(alloc),
            choices: BinaryHeap::new(alloc),
            reached: 1,
        };
        for name in 0..layout.dtd().names() {
            if sizes.of_name(name) < NO_SIZE {
                waiting.push_mentions(links, name)?;
            }
        }
        Ok(waiting)
    }

    /// Puts in all mentions of a name.
    pub fn push_mentions(&mut self, links: &Links, name: u32) -> Result<(), NoMemory>
        ensures { OnOk result (parts_waiting self.new ≤ parts_waiting self.old + 2 ^ 32) }
    {
        let mut mention = links.first_mention(name);
        while let Some(number) = mention {
            self.ready.push(number)?;
            mention = links.mention_after(number);
        }
        Ok(())
    }

    /// Puts in a choice, with the size of one of its members.
    pub fn push_choice(&mut self, choice: u32, size: u32) -> Result<(), NoMemory>
        ensures { OnOk result (parts_waiting self.new ≤ parts_waiting self.old + 1) }
    {
        if size <= self.reached {
            self.ready.push(choice)?;
        } else {
            self.choices.push(Reverse(Offer { size, choice }))?;
        }
        Ok(())
    }

    /// Takes a part of least size.
    pub fn pop(&mut self) -> Option<u32>
        ensures { OnSome result (parts_waiting self.new < parts_waiting self.old) }
    {
        if let Some(number) = self.ready.pop() {
            return Some(number);
        }
        let Reverse(offer) = self.choices.pop()?;
        self.reached = offer.size;
        Some(offer.choice)
    }
}
