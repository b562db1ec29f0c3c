//! What becomes of the points of a word where the word changes.

ghost use Rattle.std.specs.Prelude.{◌≡◌, ◌+◌, ◌≤◌, ◌++◌, List, [], IfOk, length, map};
ghost use Rattle.std.specs.Prelude.{take, drop};
ghost use Rattle.pv_model.specs.Plain.{PlainToken};
ghost use Rattle.pv_model.specs.PlainForms.{plain_part, plain_token};
ghost use Rattle.pv_model.specs.Positions.{position_count};
ghost use Rattle.pv_rematch.specs.Changes.{word_before};
ghost use Rattle.pv_rematch.specs.Points.{LeadOver, span};
ghost use Rattle.pv_rematch.specs.States.{IsAfter};
ghost use Rattle.pv_rematch.specs.Stretches.{AreOf, ReplacesPoints, StaysBefore};
ghost use Rattle.pv_rematch.specs.Walks.{Wait};

use crate::changes::WordChange;
use crate::points::{Before, Behind, point_behind, points_before};
use crate::states::State;
use crate::stretches::{Points, Stretch};
use crate::walkers::Walker;
use pv_model::{NoMemory, Part, Token};
use std::alloc::Global;

// Where the walk over a changed word begins.
#[derive(Debug, Drop)]
struct Start {
    known: Before,
    state: State,
}

impl Points {
    /// What takes the place of some points where the word changes.
    pub fn turn(
        &self,
        alloc: Global,
        part: &Part,
        change: &WordChange<'_>,
    ) -> Result<Stretch, NoMemory>
        ensures { IfOk result (λ s.
            AreOf (plain_part part.now) (map plain_token (word_before change.now)) self.now →
            ReplacesPoints (plain_part part.now) (map plain_token change.now.word.now)
            self.now.items.items s) }
    {
        let limit = change.from.checked_add(change.gone.len()).ok_or(NoMemory)?;
        let start = self.start(alloc, part, change.from)?;
        let old = point_behind(self.items.as_slice(), start.known, limit);
        self.walk_on(
            alloc,
            part,
            change.word,
            start,
            change.from + change.came,
            old,
        )
    }

    // The walk over a changed word, from a point before the change over the tokens up to a place,
    // after which the word is the same as before, to an old point or the end.
    fn walk_on(
        &self,
        alloc: Global,
        part: &Part,
        word: &[Token],
        start: Start,
        end: usize,
        old: Behind,
    ) -> Result<Stretch, NoMemory>
        requires count { length start.state.positions.items ≡
            position_count (plain_part part.now) }
        requires changed { start.known.place ≤ end }
        requires within { end ≤ length word.now }
        requires order { start.known.count ≤ old.number }
        requires old { old.number ≤ length self.now.items.items }
        ensures { IfOk result (λ s. (x : List PlainToken)
            (stays : StaysBefore (plain_part part.now) (map plain_token word.now)
            self.now.items.items start.known.count start.known.place) →
            IsAfter (plain_part part.now) stays.before start.state →
            Wait (plain_part part.now) (x ++ map plain_token (drop end word.now))
            self.now.is_allowed (length x + old.distance)
            (drop old.number self.now.items.items) →
            ReplacesPoints (plain_part part.now) (map plain_token word.now)
            self.now.items.items s) }
    {
        let first = start.known.count;
        let mut walker = Walker::at(alloc, start.state);
        let changed = &word[start.known.place..end];
        if !walker.read_all(alloc, part, changed, old.distance)? {
            return Ok(Stretch {
                first,
                last: self.items.len(),
                points: walker.points,
                is_allowed: false,
            });
        }
        let rest = &word[end..];
        let points = &self.items[old.number..];
        let walked = walker.walk(alloc, part, rest, points, old.distance, self.is_allowed)?;
        Ok(Stretch {
            first,
            last: old.number + walked.passed,
            points: walked.points,
            is_allowed: walked.is_allowed,
        })
    }

    // The last point up to a place, or the start of the word.
    fn start(&self, alloc: Global, part: &Part, from: usize) -> Result<Start, NoMemory>
        ensures count { IfOk result (λ s. length s.state.positions.items ≡
            position_count (plain_part part.now)) }
        ensures within { IfOk result (λ s. s.known.count ≤ length self.now.items.items) }
        ensures order { IfOk result (λ s. s.known.place ≤ from) }
        ensures place { IfOk result (λ s. s.known.place ≡
            span (take s.known.count self.now.items.items)) }
        ensures after { IfOk result (λ s. (u : List PlainToken) →
            LeadOver (plain_part part.now) [] (take s.known.count self.now.items.items) u →
            IsAfter (plain_part part.now) u s.state) }
    {
        let state = State::start(alloc, part)?;
        let known = points_before(self.items.as_slice(), from);
        if known.count > 0 {
            let last = &self.items[known.count - 1].state;
            if last.positions.len() == state.positions.len() {
                let state = last.copy(alloc)?;
                return Ok(Start { known, state });
            }
        }
        let known = Before { count: 0, place: 0 };
        Ok(Start { known, state })
    }
}
