//! Points of a word under a content particle, and what takes the place of some of them.

ghost use Rattle.std.specs.Prelude.{◌≡◌, ◌+◌, ◌≤◌, ◌++◌, List, IfOk, length, map, take, drop};
ghost use Rattle.std.specs.Prelude.{vec_len};
ghost use Rattle.pv_model.specs.Plain.{PlainPart, PlainToken};
ghost use Rattle.pv_model.specs.PlainForms.{plain_part, plain_token};
ghost use Rattle.pv_rematch.specs.Stretches.{AreOf, ReplacesPoints};
ghost use Rattle.pv_rematch.specs.declared.points.Point.{Point};

use crate::points::Point;
use crate::states::State;
use crate::walkers::Walker;
use pv_model::{NoMemory, Part, Token};
use std::alloc::Global;

/// Points of a word under a content particle.
#[derive(Debug, Drop)]
pub struct Points {
    /// The points, in order.
    pub items: Vec<Point>,

    /// Whether the word is one of the particle.
    pub is_allowed: bool,
}

/// What takes the place of some points.
#[derive(Debug, Drop)]
pub struct Stretch {
    /// The number of the first that gives way.
    pub first: usize,

    /// The number of the first that stays after them.
    pub last: usize,

    /// What comes in their place.
    pub points: Vec<Point>,

    /// Whether the word is one of the particle then.
    pub is_allowed: bool,
}

impl Points {
    /// The points of a word.
    pub fn of(alloc: Global, part: &Part, word: &[Token]) -> Result<Points, NoMemory>
        ensures { IfOk result (AreOf (plain_part part.now) (map plain_token word.now)) }
    {
        let walker = Walker::at(alloc, State::start(alloc, part)?);
        let walked = walker.walk(alloc, part, word, &[], usize::MAX, false)?;
        Ok(Points {
            items: walked.points,
            is_allowed: walked.is_allowed,
        })
    }

    /// Puts others in place of some.
    pub fn put(&mut self, stretch: Stretch)
        ensures { (p : PlainPart) (w : List PlainToken) →
            ReplacesPoints p w self.old.items.items stretch → AreOf p w self.new }
    {
        let Stretch {
            first,
            last,
            points,
            is_allowed,
        } = stretch;
        self.is_allowed = is_allowed;
        if first <= last && last <= self.items.len() {
            replace(&mut self.items, first, last, points);
        }
    }
}

// Puts others in place of the points from one number up to another. Where there is no memory for
// them, those up to there are left.
fn replace(items: &mut Vec<Point>, first: usize, last: usize, points: Vec<Point>)
    requires order { first ≤ last }
    requires within { last ≤ vec_len items.old }
    ensures { (rest : List Point) ×
        (take first items.old.items ++ (points.items ++ drop last items.old.items) ≡
        items.new.items ++ rest) }
{
    if items.splice(first..last, points).is_err() {
        items.truncate(first);
    }
}
