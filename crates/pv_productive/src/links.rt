//! Which sizes are made from which.

ghost use Rattle.std.specs.Prelude.{◌<◌, IfSome};

use crate::layout::Layout;
use pv_chars::NoMemory;
use pv_model::NameId;
use pv_rules::{ContentKind, FlatPart, Kind, Membership, Site};
use std::alloc::Global;

/// For each part and each rest of a sequence the site whose size is made from its own, and for each
/// name the parts that mention it.
#[derive(Debug, Drop)]
pub struct Links {
    above_parts: Vec<Option<Site>>,
    above_rests: Vec<Option<Site>>,
    first_mentions: Vec<Option<u32>>,
    next_mentions: Vec<Option<u32>>,
}

impl Links {
    /// The links of all content models, in one pass over their parts.
    pub fn of(alloc: Global, layout: &Layout) -> Result<Links, NoMemory> {
        let parts = layout.dtd().parts() as usize;
        let mut links = Links {
            above_parts: vec![in alloc; None; parts]?,
            above_rests: vec![in alloc; None; parts]?,
            first_mentions: vec![in alloc; None; layout.dtd().names() as usize]?,
            next_mentions: vec![in alloc; None; parts]?,
        };
        links.add_contents(layout);
        links.add_parts(layout);
        Ok(links)
    }

    /// The site whose size is made from that of a part or a rest; a name has mentions instead.
    pub fn above(&self, site: Site) -> Option<Site> {
        match site {
            Site::Part(number) => self.above_parts.get(number as usize).copied()?,
            Site::Rest(number) => self.above_rests.get(number as usize).copied()?,
            Site::Name(_) | Site::Content(_) => None,
        }
    }

    /// The first part that mentions a name; the others follow it by `mention_after`.
    pub fn first_mention(&self, name: u32) -> Option<u32> {
        self.first_mentions.get(name as usize).copied()?
    }

    /// The part that mentions the same name as this one, and follows it: the last one before it.
    pub fn mention_after(&self, number: u32) -> Option<u32>
        ensures { IfSome result (λ mention. mention < number) }
    {
        let mention = self.next_mentions.get(number as usize).copied()??;
        if mention < number {
            Some(mention)
        } else {
            None
        }
    }

    fn add_contents(&mut self, layout: &Layout) {
        for owner in 0..layout.dtd().count() {
            if let Some(content) = layout.content(owner) {
                if let ContentKind::Children = content.kind {
                    put(
                        &mut self.above_parts,
                        content.first,
                        Site::Name(NameId(owner)),
                    );
                }
            }
        }
    }

    fn add_parts(&mut self, layout: &Layout) {
        for number in 0..layout.dtd().parts() {
            if let Some(part) = layout.part(number) {
                self.add_first_within(number, part);
                self.add_next(layout, number, part);
            }
        }
    }

    /// The part itself is above the first one within it; a name has none, and is mentioned.
    fn add_first_within(&mut self, number: u32, part: FlatPart) {
        let within = number.saturating_add(1);
        match part.kind {
            Kind::Name(id) => self.add_mention(id.0, number),
            Kind::Seq => put(&mut self.above_rests, within, Site::Part(number)),
            Kind::Choice | Kind::Opt | Kind::Star | Kind::Plus => {
                put(&mut self.above_parts, within, Site::Part(number));
            }
        }
    }

    /// What is above the part that follows a member.
    fn add_next(&mut self, layout: &Layout, number: u32, part: FlatPart) {
        match part.membership {
            Membership::Outside => self.add_next_of_choice(layout, number, part),
            Membership::Last => put(&mut self.above_parts, number, Site::Rest(number)),
            Membership::Followed => {
                put(&mut self.above_parts, number, Site::Rest(number));
                put(&mut self.above_rests, part.end, Site::Rest(number));
            }
        }
    }

    /// A choice is above each of its members; no other part that is outside sequences is followed.
    fn add_next_of_choice(&mut self, layout: &Layout, number: u32, part: FlatPart) {
        if let Some(Site::Part(choice)) = self.above(Site::Part(number)) {
            if let Some(around) = layout.part(choice) {
                if part.end < around.end {
                    put(&mut self.above_parts, part.end, Site::Part(choice));
                }
            }
        }
    }

    fn add_mention(&mut self, name: u32, number: u32) {
        if let Some(first) = self.first_mentions.get_mut(name as usize) {
            if let Some(next) = self.next_mentions.get_mut(number as usize) {
                *next = *first;
                *first = Some(number);
            }
        }
    }
}

fn put(sites: &mut Vec<Option<Site>>, number: u32, site: Site) {
    if let Some(above) = sites.get_mut(number as usize) {
        *above = Some(site);
    }
}
