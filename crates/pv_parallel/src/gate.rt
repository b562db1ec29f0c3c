//! What is told of each list before it is judged.

ghost use Rattle.std.specs.Prelude.{ℕ};

/// What the thread that judges a list tells just before.
pub trait Gate {
    /// Says of a number that it was told. `enter` alone shows it.
    ghost entered: { Self → ℕ → Type 0 };

    /// The list of this number, counted from 0 in document order, is judged next, by this thread.
    fn enter(&self, number: u64)
        ensures { entered self.now number };
}

/// A gate that does nothing, for callers that don't watch which list is judged.
#[derive(Clone, Copy, Debug)]
pub struct NoGate;

impl Gate for NoGate {
    ghost use Rattle.std.specs.Prelude.{⊤};

    ghost entered = { λ _ _. ⊤ };

    fn enter(&self, _number: u64) {}
}
