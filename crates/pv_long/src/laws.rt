//! The law of least numbers, the contract of a function that does nothing.

ghost use Rattle.pv_long.specs.BoundAnswers.{OneLeast};

/// A document has one least number of missing elements, whoever tells it: where `need` of
/// pv_complete tells one, and `missing` tells one exactly, they are the same.
pub fn one_least_law()
    ensures { OneLeast }
{}
