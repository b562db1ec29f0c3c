//! Walks over tokens of a word, which leave points.

ghost use Rattle.std.specs.Prelude.{◌≡◌, ◌+◌, ◌∷◌, ◌++◌, [], ℕ, Bool, List, IsTrue, IfOk, length};
ghost use Rattle.std.specs.Prelude.{◌<◌, ◌≤◌, map, false, slice_index_or};
ghost use Rattle.pv_rematch.specs.declared.points.Point.{Point};
ghost use Rattle.pv_model.specs.Plain.{PlainPart, PlainToken};
ghost use Rattle.pv_model.specs.PlainForms.{plain_part, plain_token};
ghost use Rattle.pv_model.specs.Positions.{position_count};
ghost use Rattle.pv_rematch.specs.States.{is_word};
ghost use Rattle.pv_rematch.specs.Points.{ArePoints};
ghost use Rattle.pv_rematch.specs.Walks.{HasRead, HasWalked, Wait};

use crate::points::Point;
use crate::states::State;
use pv_model::{NoMemory, Part, Token};
use std::alloc::Global;

/// A particle of at least so many positions is large.
const LARGE_PART: usize = 64;

/// About so many tokens stand between points under a small particle.
const FAR: usize = 64;

/// About so many tokens stand between points under a large particle, for which a token takes long.
const NEAR: usize = 16;

/// A walk over tokens of a word.
#[derive(Debug, Drop)]
pub struct Walker {
    /// What the tokens so far have reached.
    pub state: State,

    /// How many there are since the last point.
    pub since: usize,

    /// The new points.
    pub points: Vec<Point>,
}

/// What a walk has found.
#[derive(Debug, Drop)]
pub struct Walked {
    /// The new points.
    pub points: Vec<Point>,

    /// How many of the old points it has passed; the others stay, after the new ones.
    pub passed: usize,

    /// Whether the word is one of the particle.
    pub is_allowed: bool,
}

impl Walker {
    /// A walk that begins where this is reached.
    pub fn at(alloc: Global, state: State) -> Walker
        ensures state { result.state ≡ state }
        ensures since { result.since ≡ 0 }
        ensures points { result.points.items ≡ [] }
    {
        Walker {
            state,
            since: 0,
            points: Vec::new(alloc),
        }
    }

    // About how many tokens stand between points.
    fn stride(&self) -> usize {
        if self.state.positions.len() < LARGE_PART {
            FAR
        } else {
            NEAR
        }
    }

    // Reads a token, which stands so many tokens before an old point, and tells whether a word of
    // the particle may go on so.
    fn read(
        &mut self,
        alloc: Global,
        part: &Part,
        token: Token,
        ahead: usize,
    ) -> Result<bool, NoMemory>
        requires { length self.old.state.positions.items ≡ position_count (plain_part part.now) }
        ensures count { length self.new.state.positions.items ≡
            position_count (plain_part part.now) }
        ensures next { IfOk result (λ goes_on. (u a : List PlainToken) →
            HasRead (plain_part part.now) u a self.old → IsTrue goes_on →
            HasRead (plain_part part.now) u (a ++ plain_token token ∷ []) self.new) }
        ensures lost { IfOk result (λ goes_on. (u a v : List PlainToken) →
            HasRead (plain_part part.now) u a self.old → goes_on ≡ false →
            is_word (plain_part part.now) (u ++ (a ++ plain_token token ∷ v)) ≡ false) }
        ensures points { IfOk result (λ goes_on. goes_on ≡ false →
            self.new.points.items ≡ self.old.points.items) }
    {
        let Token::Name(name) = token else {
            return Ok(false);
        };
        if !self.state.read(part, name) {
            return Ok(false);
        }
        self.since = self.since.checked_add(1).ok_or(NoMemory)?;
        let stride = self.stride();
        if self.since >= stride && ahead > stride / 2 {
            self.leave_point(alloc)?;
        }
        Ok(true)
    }

    // Leaves a point where the walk is.
    fn leave_point(&mut self, alloc: Global) -> Result<(), NoMemory>
        ensures state { self.new.state ≡ self.old.state }
        ensures read { IfOk result (λ _. (p : PlainPart) (u a : List PlainToken) →
            HasRead p u a self.old → HasRead p u a self.new) }
    {
        let state = self.state.copy(alloc)?;
        self.points.push(Point {
            gap: self.since,
            state,
        })?;
        self.since = 0;
        Ok(())
    }

    /// Reads tokens, and tells whether a word of the particle may go on so. An old point stands so
    /// many tokens after them.
    pub fn read_all(
        &mut self,
        alloc: Global,
        part: &Part,
        tokens: &[Token],
        ahead: usize,
    ) -> Result<bool, NoMemory>
        requires { length self.old.state.positions.items ≡ position_count (plain_part part.now) }
        ensures count { length self.new.state.positions.items ≡
            position_count (plain_part part.now) }
        ensures next { IfOk result (λ goes_on. (u a : List PlainToken) →
            HasRead (plain_part part.now) u a self.old → IsTrue goes_on →
            HasRead (plain_part part.now) u (a ++ map plain_token tokens.now) self.new) }
        ensures lost { IfOk result (λ goes_on. (u a v : List PlainToken) →
            HasRead (plain_part part.now) u a self.old → goes_on ≡ false →
            is_word (plain_part part.now) (u ++ (a ++ (map plain_token tokens.now ++ v))) ≡ false) }
        ensures points { IfOk result (λ goes_on. (u a v : List PlainToken) →
            HasRead (plain_part part.now) u a self.old → goes_on ≡ false →
            ArePoints (plain_part part.now) u (a ++ (map plain_token tokens.now ++ v))
            self.new.points.items) }
    {
        for (number, token) in tokens.iter().enumerate() {
            let distance = ahead.saturating_add(tokens.len() - number);
            if !self.read(alloc, part, *token, distance)? {
                return Ok(false);
            }
        }
        Ok(true)
    }

    // Whether the walk meets an old point, one after which nothing has changed.
    fn meets(&self, point: &Point) -> bool
        ensures start { IsTrue result → self.now.state.is_start ≡ point.now.state.is_start }
        ensures end { IsTrue result → self.now.state.is_end ≡ point.now.state.is_end }
        ensures positions { IsTrue result →
            self.now.state.positions.items ≡ point.now.state.positions.items }
    {
        self.since >= self.stride() / 2 && self.state.is_same(&point.state)
    }

    // The walk ends at an old point, which gives way to a new one.
    fn end_at(self, passed: usize, is_allowed: bool) -> Result<Walked, NoMemory>
        ensures passed { IfOk result (λ f. f.passed ≡ passed) }
        ensures allowed { IfOk result (λ f. f.is_allowed ≡ is_allowed) }
        ensures points { IfOk result (λ f. f.points.items ≡
            self.points.items ++ (record { gap = self.since; state = self.state }) ∷ []) }
    {
        let Walker {
            state,
            since,
            mut points,
        } = self;
        points.push(Point { gap: since, state })?;
        Ok(Walked {
            points,
            passed,
            is_allowed,
        })
    }

    // The walk ends before it meets an old point.
    fn end(self, passed: usize, is_allowed: bool) -> Walked
        ensures passed { result.passed ≡ passed }
        ensures allowed { result.is_allowed ≡ is_allowed }
        ensures points { result.points.items ≡ self.points.items }
    {
        Walked {
            points: self.points,
            passed,
            is_allowed,
        }
    }

    /// Walks over the rest of the word, which is the same as before, up to an old point where the
    /// same is reached as before, or to the end. The first of the old points stands so many tokens
    /// after the rest's start; before, the word was one of the particle or not.
    pub fn walk(
        mut self,
        alloc: Global,
        part: &Part,
        rest: &[Token],
        points: &[Point],
        mut ahead: usize,
        was_allowed: bool,
    ) -> Result<Walked, NoMemory>
        requires { length self.state.positions.items ≡ position_count (plain_part part.now) }
        ensures passed { IfOk result (λ f. f.passed ≤ length points.now) }
        ensures walked { IfOk result (λ f. (u a x : List PlainToken) →
            HasRead (plain_part part.now) u a self →
            Wait (plain_part part.now) (x ++ map plain_token rest.now) was_allowed
            (length x + ahead) points.now →
            HasWalked (plain_part part.now) u (a ++ map plain_token rest.now) points.now f) }
    {
        let mut next = 0;
        for token in rest {
            if next < points.len() && ahead == 0 {
                if self.meets(&points[next]) {
                    return self.end_at(next + 1, was_allowed);
                }
                next += 1;
                ahead = gap_at(points, next);
            }
            if !self.read(alloc, part, *token, ahead)? {
                return Ok(self.end(points.len(), false));
            }
            if ahead == 0 {
                next = points.len();
            } else {
                ahead -= 1;
            }
        }
        let is_end = self.state.is_end;
        Ok(self.end(points.len(), is_end))
    }
}

// How far a point stands after the one before it, or as far as can be if there is none.
fn gap_at(points: &[Point], number: usize) -> usize
    ensures { number < length points.now → (d : Point) →
        result ≡ (slice_index_or points.now number d).gap }
{
    match points.get(number) {
        Some(point) => point.gap,
        None => usize::MAX,
    }
}
