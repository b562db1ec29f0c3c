//! The outside: where bytes come from and go to, each with a count of faults. A call that answers
//! an error counted a fault, and every other call counted none (`specs/Causes.antt`); what is asked
//! for bytes counts its calls, too, and a sink that failed may not be asked again; what a device
//! tells of its bytes is what its calls gave and took.
#![tactic(auto)]

mod machine;
mod memory;
mod shelf;
mod sink;
mod source;

pub use machine::{FolderShelf, ReadSource, WriteSink};
pub use memory::{MemShelf, MemSink, MemSource};
pub use shelf::{FetchError, Shelf};
pub use sink::{Sink, write_all};
pub use source::{Failed, Source};
