//! Events that are wanted, and taken one by one, however their texts are cut.

ghost use Rattle.std.specs.Prelude.{◌≡◌, ◌≢◌, ◌↔◌, ◌++◌, ◌∷◌, [], IsTrue, IfOk, false, List, ℕ};
ghost use Rattle.pv_flat.specs.Plain.{plain_event};
ghost use Rattle.pv_compare.specs.LeftOut.{bytewise};
ghost use Rattle.pv_flat.specs.Plain.{PlainEvent, text_here};

use pv_flat::Event;

/// The bytes of a text that are still wanted, and the events after it.
#[derive(Clone, Copy)]
pub struct Wanted<'a> {
    pub text: &'a [u8],
    pub events: &'a [Event<'a>],
}

impl<'a> Wanted<'a> {
    ghost use Rattle.pv_compare.specs.WantedEvents.{IsTaken, begins_no_text, wanted_events};

    // Goes on to a text that has bytes, where one stands at the front.
    fn open_text(&mut self)
        ensures same { wanted_events self.new ≡ wanted_events self.old }
        ensures front { self.new.text.now ≡ [] → begins_no_text self.new.events.now }
    {
        'texts: while self.text.is_empty() {
            let [Event::Text(bytes), behind @ ..] = self.events else {
                return;
            };
            self.text = bytes;
            self.events = behind;
        }
    }

    // Takes a byte of a text: whether it stands at the front.
    fn take_byte(&mut self, byte: u8) -> bool
        ensures { IsTaken (text_here (byte ∷ [])) result self.old self.new }
    {
        self.open_text();
        let [first, behind @ ..] = self.text else {
            return false;
        };
        if *first != byte {
            return false;
        }
        self.text = behind;
        true
    }

    // Takes the bytes of a text.
    fn take_text(&mut self, bytes: &[u8]) -> bool
        ensures { IsTaken (text_here bytes.now) result self.old self.new }
    {
        for byte in bytes {
            if !self.take_byte(*byte) {
                return false;
            }
        }
        true
    }

    // Takes an event that is no text.
    fn take_other(&mut self, event: &Event<'_>) -> bool
        requires { (bytes : List ℕ) → plain_event event.now ≢ text_here bytes }
        ensures { IsTaken (plain_event event.now) result self.old self.new }
    {
        self.open_text();
        let [first, behind @ ..] = self.events else {
            return false;
        };
        if !self.text.is_empty() || !is_same(first, event) {
            return false;
        }
        self.events = behind;
        true
    }

    /// Takes an event: whether it stands at the front.
    pub fn take(&mut self, event: &Event<'_>) -> bool
        ensures { IsTaken (plain_event event.now) result self.old self.new }
    {
        match event {
            Event::Text(bytes) => self.take_text(bytes),
            Event::Start { .. } | Event::Stop | Event::Cdata(_) | Event::Misc(_) => {
                self.take_other(event)
            }
        }
    }

    /// Whether nothing is wanted.
    pub fn is_none(&mut self) -> bool
        ensures { IsTrue result ↔ (wanted_events self.old ≡ []) }
    {
        self.open_text();
        self.text.is_empty() && self.events.is_empty()
    }
}

// Whether two events are the same.
fn is_same(one: &Event<'_>, other: &Event<'_>) -> bool
    ensures { IsTrue result ↔ (plain_event one.now ≡ plain_event other.now) }
{
    match (one, other) {
        (
            Event::Start { name, attrs },
            Event::Start {
                name: named,
                attrs: listed,
            },
        ) => { name == named && attrs == listed }
        (Event::Stop, Event::Stop) => true,
        (Event::Text(bytes), Event::Text(others)) => bytes == others,
        (Event::Cdata(bytes), Event::Cdata(others)) => bytes == others,
        (Event::Misc(bytes), Event::Misc(others)) => bytes == others,
        _ => false,
    }
}
