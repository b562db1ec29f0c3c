//! Events, read one by one.

ghost use Rattle.std.specs.Prelude.{◌≡◌, ◌≢◌, ◌≤◌, ◌<◌, ◌+◌, ◌∷◌, [], length, true, IfOk, IfErr};
ghost use Rattle.std.specs.Prelude.{List, ℕ, Ok, Err, None};
ghost use Rattle.pv_tree.specs.Marks.{blank_mark};
ghost use Rattle.pv_tree.specs.declared.nodes.Mark.{Mark};
ghost use Rattle.pv_read.specs.Errors.{Refuses};
ghost use Rattle.pv_read.specs.Left.{Left};
ghost use Rattle.pv_read.specs.Meaning.{DocumentMeansWithin, DocumentRestMeans};
ghost use Rattle.pv_read.specs.PlainItems.{plain_item};
ghost use Rattle.pv_read.specs.Places.{may_stand_in_content};
ghost use Rattle.pv_flat.specs.ComingEvents.{AdvancesBy, AnswersNext, IsIn, IsInnermost};
ghost use Rattle.pv_flat.specs.ComingEvents.{IsErrorKept};
ghost use Rattle.pv_flat.specs.ComingEvents.{IsOpening, LeadsBy, PassesOver, PassesTag};
ghost use Rattle.pv_flat.specs.ComingEvents.{SameState, TakesInside, error_of, flat_limits};
ghost use Rattle.pv_flat.specs.ComingEvents.{open_names};
ghost use Rattle.pv_flat.specs.Plain.{plain_event};
ghost use Rattle.pv_flat.specs.Steps.{EntersRoot, LeavesLess, MovesBy, PassesItem, StandsAs};
ghost use Rattle.pv_flat.specs.declared.faults.Fault.{Fault};
ghost use Rattle.pv_flat.specs.declared.state.Stage.TheVariants as stage;

use crate::event::Event;
use crate::faults::Fault;
use crate::state::{Events, Stage};
use pv_chars::scan::after_byte_order_mark;
use pv_chars::{NoMemory, bytes_of};
use pv_read::DocError;
use pv_read::epilog::read_epilog;
use pv_read::faults::next_item;
use pv_read::forms::Item;
use pv_read::places::Place;
use pv_read::prolog::{RootTag, root_tag};
use std::alloc::Global;

/// The most bytes of a text that is read by events.
pub const MAX_FLAT_BYTES: usize = 1_073_741_824;

// The tag that opens the root of a text.
fn opening_of<'a>(root: &[u8], bytes: &'a [u8]) -> Result<RootTag<'a>, DocError>
    ensures opens { IfOk result (λ tag. IsOpening root.now bytes.now tag) }
    ensures refused { IfErr result (λ e.
        Refuses (DocumentMeansWithin flat_limits blank_mark root.now bytes.now) e) }
{
    if bytes.len() > MAX_FLAT_BYTES {
        return Err(DocError::Limit);
    }
    root_tag(None, root, after_byte_order_mark(bytes))
}

impl<'a> Events<'a> {
    /// The events of the bytes, where the root's name is this one; none of them is read yet.
    pub fn new(alloc: Global, bytes: &'a [u8], root: &[u8]) -> Result<Events<'a>, NoMemory>
        ensures fresh { IfOk result (λ events. events.stage ≡ stage.Fresh) }
        ensures root { IfOk result (λ events. events.root ≡ root.now) }
        ensures bytes { IfOk result (λ events. events.bytes.now ≡ bytes.now) }
        ensures rest { IfOk result (λ events. events.rest.now ≡ bytes.now) }
        ensures before { IfOk result (λ events. events.before.now ≡ []) }
    {
        Ok(Events {
            root: bytes_of(alloc, root)?,
            bytes,
            before: bytes.split_at(0).0,
            rest: bytes,
            count: 0,
            elements: Vec::new(alloc),
            stage: Stage::Fresh,
        })
    }

    /// The bytes before the root's tag, once an event was given; until then none.
    pub fn before(&self) -> &'a [u8]
        ensures { result.now ≡ self.now.before.now }
    {
        self.before
    }

    /// The bytes after the item of the last event that was given; until then all.
    pub fn rest(&self) -> &'a [u8]
        ensures { result.now ≡ self.now.rest.now }
    {
        self.rest
    }

    // Passes the tag of the root.
    fn pass_tag(&mut self, opening: &RootTag<'a>)
        requires { IsOpening self.old.root self.old.bytes.now opening.now }
        ensures { PassesTag self.old opening.now self.new }
    {
        let start = self.bytes.len() - opening.from_tag.len();
        self.before = self.bytes.split_at(start).0;
        self.rest = opening.rest;
        self.count = opening.count + 1;
    }

    // Enters the root by its tag.
    fn enter(&mut self, opening: &RootTag<'a>) -> Result<Event<'a>, NoMemory>
        requires opens { IsOpening self.old.root self.old.bytes.now opening.now }
        requires fresh { self.old.stage ≡ stage.Fresh }
        ensures leads { IfOk result (λ e. LeadsBy (plain_event e ∷ []) self.old self.new) }
        ensures enters { IfOk result (λ e.
            EntersRoot self.old opening.now (plain_event e) self.new) }
        ensures same { IfErr result (λ _. SameState self.old self.new) }
        ensures stands { IfErr result (λ _. StandsAs self.old self.new) }
        ensures at_stage { IfErr result (λ _. self.new.stage ≡ self.old.stage) }
    {
        let event = Event::Start {
            name: opening.tag.name,
            attrs: opening.tag.attrs,
        };
        if opening.is_short {
            self.stage = Stage::StopDue;
            self.pass_tag(opening);
            return Ok(event);
        }
        self.elements.push(opening.tag.name)?;
        self.stage = Stage::Inside;
        self.pass_tag(opening);
        Ok(event)
    }

    // The first event.
    fn begin(&mut self) -> Result<Option<Event<'a>>, DocError>
        requires { self.old.stage ≡ stage.Fresh }
        ensures advances { AdvancesBy self.old result self.new }
        ensures moves { MovesBy self.old result self.new }
        ensures leaves_less { LeavesLess self.old result self.new }
        ensures at_stage { IfErr result (λ _. self.new.stage ≡ self.old.stage) }
    {
        let opening = opening_of(self.root.as_slice(), self.bytes)?;
        let event = self.enter(&opening)?;
        Ok(Some(event))
    }

    // The item at the front of the rest, in the innermost of the open elements.
    fn read_item(&self, name: &[u8]) -> Result<(Item<'a>, &'a [u8]), DocError>
        requires { IsInnermost self.now name.now }
        ensures taken { IfOk result (λ r. TakesInside self.now (plain_item r.0) r.1.now) }
        ensures refused { IfErr result (λ e. (left : Left Mark) →
            IsIn self.now.before.now (open_names self.now) left →
            Refuses (DocumentRestMeans None blank_mark self.now.root self.now.count left
            self.now.rest.now) e) }
        ensures within { IfOk result (λ r. length r.1.now < length self.now.rest.now) }
    {
        let place = Place::Content(name, self.elements.len());
        next_item(None, &place, self.root.as_slice(), self.rest, self.count)
    }

    // Passes an item, after which this stands.
    fn pass(&mut self, more: &'a [u8])
        requires { length more.now < length self.old.rest.now }
        ensures { PassesOver self.old more.now self.new }
    {
        let _length = self.bytes.len();
        self.rest = more;
        self.count += 1;
    }

    // Takes an item in the root, after which this stands.
    fn take(&mut self, item: &Item<'a>, more: &'a [u8]) -> Result<Event<'a>, NoMemory>
        requires inside { self.old.stage ≡ stage.Inside }
        requires some { open_names self.old ≢ [] }
        requires stands { may_stand_in_content (plain_item item.now) ≡ true }
        requires taken { TakesInside self.old (plain_item item.now) more.now }
        requires within { length more.now < length self.old.rest.now }
        ensures leads { IfOk result (λ e. LeadsBy (plain_event e ∷ []) self.old self.new) }
        ensures passes { IfOk result (λ e.
            PassesItem self.old (plain_item item.now) more.now (plain_event e) self.new) }
        ensures same { IfErr result (λ _. SameState self.old self.new) }
        ensures stands { IfErr result (λ _. StandsAs self.old self.new) }
        ensures at_stage { IfErr result (λ _. self.new.stage ≡ self.old.stage) }
    {
        match item {
            Item::XmlDeclaration(_) | Item::Doctype { .. } => unreachable!(),
            Item::CommentOrInstruction(bytes) => {
                self.pass(more);
                Ok(Event::Misc(bytes))
            }
            Item::CdataSection(bytes) => {
                self.pass(more);
                Ok(Event::Cdata(bytes))
            }
            Item::TextRun(bytes) => {
                self.pass(more);
                Ok(Event::Text(bytes))
            }
            Item::StartTag(tag) => {
                self.elements.push(tag.name)?;
                self.pass(more);
                Ok(Event::Start {
                    name: tag.name,
                    attrs: tag.attrs,
                })
            }
            Item::EmptyTag(tag) => {
                self.pass(more);
                self.stage = Stage::StopDue;
                Ok(Event::Start {
                    name: tag.name,
                    attrs: tag.attrs,
                })
            }
            Item::EndTag { .. } => {
                let _name = self.elements.pop();
                self.pass(more);
                Ok(Event::Stop)
            }
        }
    }

    // The next event in the innermost of the open elements.
    fn go_on(&mut self, name: &'a [u8]) -> Result<Option<Event<'a>>, DocError>
        requires inside { self.old.stage ≡ stage.Inside }
        requires innermost { IsInnermost self.old name.now }
        ensures advances { AdvancesBy self.old result self.new }
        ensures moves { MovesBy self.old result self.new }
        ensures leaves_less { LeavesLess self.old result self.new }
        ensures at_stage { IfErr result (λ _. self.new.stage ≡ self.old.stage) }
    {
        let (item, more) = self.read_item(name)?;
        let event = self.take(&item, more)?;
        Ok(Some(event))
    }

    // Reads what stands after the root.
    fn finish(&mut self) -> Result<Option<Event<'a>>, DocError>
        requires inside { self.old.stage ≡ stage.Inside }
        requires none { self.old.elements.items ≡ [] }
        ensures advances { AdvancesBy self.old result self.new }
        ensures moves { MovesBy self.old result self.new }
        ensures leaves_less { LeavesLess self.old result self.new }
        ensures at_stage { IfErr result (λ _. self.new.stage ≡ self.old.stage) }
    {
        read_epilog(None, self.root.as_slice(), self.rest, self.count)?;
        self.stage = Stage::Ended;
        Ok(None)
    }

    // The next event in the root, or its end.
    fn go_inside(&mut self) -> Result<Option<Event<'a>>, DocError>
        requires { self.old.stage ≡ stage.Inside }
        ensures advances { AdvancesBy self.old result self.new }
        ensures moves { MovesBy self.old result self.new }
        ensures leaves_less { LeavesLess self.old result self.new }
        ensures at_stage { IfErr result (λ _. self.new.stage ≡ self.old.stage) }
    {
        match self.elements.last() {
            Some(name) => {
                let name = *name;
                self.go_on(name)
            }
            None => self.finish(),
        }
    }

    // The next event, where an error isn't kept yet.
    fn advance(&mut self) -> Result<Option<Event<'a>>, DocError>
        ensures advances { AdvancesBy self.old result self.new }
        ensures moves { MovesBy self.old result self.new }
        ensures leaves_less { LeavesLess self.old result self.new }
        ensures at_stage { IfErr result (λ _. self.new.stage ≡ self.old.stage) }
        ensures ended { self.old.stage ≡ stage.Ended → result ≡ Ok None }
        ensures again { (f : Fault) → self.old.stage ≡ stage.Failed f →
            result ≡ Err (error_of f) }
    {
        match self.stage {
            Stage::Fresh => self.begin(),
            Stage::Inside => self.go_inside(),
            Stage::StopDue => {
                self.stage = Stage::Inside;
                Ok(Some(Event::Stop))
            }
            Stage::Ended => Ok(None),
            Stage::Failed(fault) => Err(fault.error()),
        }
    }

    // Keeps an error, to tell it again.
    fn keep(&mut self, error: &DocError)
        ensures kept { IsErrorKept error.now self.old self.new }
        ensures stands { StandsAs self.old self.new }
        ensures at_stage { error.now ≡ DocError.NoMemory → self.new.stage ≡ self.old.stage }
    {
        match error {
            DocError::NoMemory => {}
            _ => self.stage = Stage::Failed(Fault::of(error)),
        }
    }

    /// The next event; none after the end of the text. An error other than want of memory is told
    /// again from then on; after want of memory, all is as it was.
    pub fn next(&mut self) -> Result<Option<Event<'a>>, DocError>
        ensures answers { AnswersNext self.old result self.new }
        ensures moves { MovesBy self.old result self.new }
        ensures leaves_less { LeavesLess self.old result self.new }
        ensures ended { self.old.stage ≡ stage.Ended → result ≡ Ok None }
        ensures again { (f : Fault) → self.old.stage ≡ stage.Failed f →
            result ≡ Err (error_of f) }
    {
        match self.advance() {
            Ok(found) => Ok(found),
            Err(error) => {
                self.keep(&error);
                Err(error)
            }
        }
    }
}
