//! Devices in memory, with calls that fail where the caller says.

mod calls;
mod shelf;
mod sink;
mod source;

pub use shelf::MemShelf;
pub use sink::MemSink;
pub use source::MemSource;
