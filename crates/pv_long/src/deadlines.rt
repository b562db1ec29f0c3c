//! When the search for bounds ends.

/// Says whether the time for bounds is over. What is told of a document is right whatever it
/// returns, and whenever.
pub trait Deadline {
    /// Whether the time is over. It is asked for each list, before anything is made of it.
    fn is_past(&self) -> bool;
}

/// No end: of each list as much is found as there is room for.
#[derive(Clone, Copy, Debug)]
pub struct NoDeadline;

impl Deadline for NoDeadline {
    fn is_past(&self) -> bool {
        false
    }
}
