//! Documents as events, with no limit on depth.
//!
//! The events of a document are what begins, ends or stands in its root, in the order of its bytes
//! (`specs/Plain.antt`). `Events` gives them one by one, with a stack of its own, and reads items
//! by the functions by which documents are read. What comes from a state on (`Comes`,
//! `specs/ComingEvents.antt`) is told by what the rest of the text means.
#![tactic(auto)]

mod event;
mod events;
mod faults;
mod state;
mod validity;

pub use event::Event;
pub use events::MAX_FLAT_BYTES;
pub use state::Events;
pub use validity::valid_events;
