//! When the rules of a grammar are laid out.

/// When the rules are laid out by which lists are judged.
#[derive(Clone, Copy, Debug)]
pub enum Planning {
    /// They are, by the judge.
    Laid,
    /// At the first list that isn't seen to be Valid, where the judge has no plan.
    AtNeed,
}
