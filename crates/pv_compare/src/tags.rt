//! Events without the tags of marked elements.

ghost use Rattle.std.specs.Prelude.{◌≡◌, ◌<◌, ◌^◌, IfOk};
ghost use Rattle.pv_flat.specs.Plain.{plain_event};

use pv_chars::NoMemory;
use pv_flat::Event;
use std::alloc::Global;

/// Where a reader of events stands that leaves out the tags of marked elements: the number of the
/// next element, the numbers of the marked ones that are still to begin, and of each open element,
/// the outermost first, whether its tags are left out.
#[derive(Drop)]
pub struct Tags<'a> {
    pub next: u64,
    pub marks: &'a [u32],
    pub outs: Vec<bool>,
}

impl<'a> Tags<'a> {
    ghost use Rattle.std.specs.Prelude.{[]};
    ghost use Rattle.pv_compare.specs.ReaderMoves.{PassesBy};
    ghost use Rattle.pv_compare.specs.LeftOut.{is_marked};
    ghost use Rattle.pv_flat.specs.Plain.{begin_element, end_element};

    /// At the start of a document's root.
    pub fn new(alloc: Global, marks: &'a [u32]) -> Tags<'a>
        ensures next { result.next ≡ 0 }
        ensures marks { result.marks.now ≡ marks.now }
        ensures outs { result.outs.items ≡ [] }
    {
        Tags {
            next: 0,
            marks,
            outs: Vec::new(alloc),
        }
    }

    // Whether the next element, with these attribute bytes, is the first of the marked ones.
    fn is_marked(&self, attrs: &[u8]) -> bool
        ensures { result ≡ is_marked self.now.next self.now.marks.now attrs.now }
    {
        match self.marks {
            [] => false,
            [first, ..] => attrs.is_empty() && u64::from(*first) == self.next,
        }
    }

    // Begins an element with these attribute bytes: whether its tag stays.
    fn begin(&mut self, name: &[u8], attrs: &[u8]) -> Result<bool, NoMemory>
        requires { self.old.next < 2 ^ 63 }
        ensures { IfOk result (λ stays.
            PassesBy (begin_element name.now attrs.now) stays self.old self.new) }
    {
        let marked = self.is_marked(attrs);
        self.outs.push(marked)?;
        self.next += 1;
        if marked {
            self.marks = &self.marks[1..];
        }
        Ok(!marked)
    }

    // Ends the innermost of the open elements: whether its tag stays.
    fn end(&mut self) -> bool
        ensures { PassesBy end_element result self.old self.new }
    {
        match self.outs.pop() {
            Some(out) => !out,
            None => true,
        }
    }

    /// Passes an event: whether it stays.
    pub fn pass(&mut self, event: &Event<'_>) -> Result<bool, NoMemory>
        requires { self.old.next < 2 ^ 63 }
        ensures { IfOk result (λ stays. PassesBy (plain_event event.now) stays self.old self.new) }
    {
        match event {
            Event::Start { name, attrs } => self.begin(name, attrs),
            Event::Stop => Ok(self.end()),
            Event::Text(_) | Event::Cdata(_) | Event::Misc(_) => Ok(true),
        }
    }
}
