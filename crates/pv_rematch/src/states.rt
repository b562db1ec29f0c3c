//! What the tokens before a place of a word have reached in a content particle.

ghost use Rattle.std.specs.Prelude.{◌≡◌, ◌∷◌, ◌++◌, [], List, IsTrue, IfOk, length, false};
ghost use Rattle.pv_model.specs.Plain.{PlainPart, PlainToken, named};
ghost use Rattle.pv_model.specs.PlainForms.{plain_part};
ghost use Rattle.pv_model.specs.Positions.{position_count};
ghost use Rattle.pv_rematch.specs.States.{IsAfter, is_word};

use pv_model::{NameId, NoMemory, Part, advance, may_be_empty, push_positions};
use std::alloc::Global;

/// Room for the positions of most particles, taken at once.
const POSITIONS_AT_ONCE: usize = 64;

/// What tokens have reached in a particle.
#[derive(Debug, Drop)]
pub struct State {
    /// Whether there are none yet, so that the particle may begin with the next one.
    pub is_start: bool,

    /// Whether they are a word of the particle.
    pub is_end: bool,

    /// For each position of the particle whether it is reached.
    pub positions: Vec<bool>,
}

impl State {
    /// Before the first token.
    pub fn start(alloc: Global, part: &Part) -> Result<State, NoMemory>
        ensures { IfOk result (IsAfter (plain_part part.now) []) }
    {
        let mut positions = Vec::with_capacity(alloc, POSITIONS_AT_ONCE)?;
        push_positions(part, &mut positions)?;
        Ok(State {
            is_start: true,
            is_end: may_be_empty(part),
            positions,
        })
    }

    /// A copy of it.
    pub fn copy(&self, alloc: Global) -> Result<State, NoMemory>
        ensures start { IfOk result (λ s. s.is_start ≡ self.now.is_start) }
        ensures end { IfOk result (λ s. s.is_end ≡ self.now.is_end) }
        ensures positions { IfOk result (λ s. s.positions.items ≡ self.now.positions.items) }
    {
        Ok(State {
            is_start: self.is_start,
            is_end: self.is_end,
            positions: Vec::from_slice(alloc, self.positions.as_slice())?,
        })
    }

    /// Whether the same is reached in both.
    pub fn is_same(&self, other: &State) -> bool
        ensures start { IsTrue result → self.now.is_start ≡ other.now.is_start }
        ensures end { IsTrue result → self.now.is_end ≡ other.now.is_end }
        ensures positions { IsTrue result →
            self.now.positions.items ≡ other.now.positions.items }
    {
        self.is_start == other.is_start
            && self.is_end == other.is_end
            && self.positions.as_slice() == other.positions.as_slice()
    }

    /// Reads one more name, and tells whether a word of the particle may go on so.
    pub fn read(&mut self, part: &Part, name: NameId) -> bool
        requires { length self.old.positions.items ≡ position_count (plain_part part.now) }
        ensures count { length self.new.positions.items ≡ position_count (plain_part part.now) }
        ensures next { (u : List PlainToken) → IsAfter (plain_part part.now) u self.old →
            IsTrue result → IsAfter (plain_part part.now) (u ++ named name.0 ∷ []) self.new }
        ensures lost { (u v : List PlainToken) → IsAfter (plain_part part.now) u self.old →
            result ≡ false → is_word (plain_part part.now) (u ++ named name.0 ∷ v) ≡ false }
    {
        let moved = advance(part, self.is_start, name, &mut self.positions, 0);
        self.is_start = false;
        self.is_end = moved.is_end;
        moved.is_reached
    }
}
