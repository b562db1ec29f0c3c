//! Points of a word.

ghost use Rattle.std.specs.Prelude.{◌≡◌, ◌+◌, ◌≤◌, ◌<◌, length, take};
ghost use Rattle.pv_rematch.specs.Points.{span};

use crate::states::State;

/// What the tokens before a place of a word have reached.
#[derive(Debug, Drop)]
pub struct Point {
    /// How many tokens stand between the point before it, or the word's start, and this one.
    pub gap: usize,

    /// What is reached.
    pub state: State,
}

/// How many points there are up to a place, and the place of the last of them.
#[derive(Clone, Copy, Debug)]
pub struct Before {
    pub count: usize,
    pub place: usize,
}

/// The points up to a place.
pub fn points_before(points: &[Point], from: usize) -> Before
    ensures within { result.count ≤ length points.now }
    ensures place { result.place ≡ span (take result.count points.now) }
    ensures order { result.place ≤ from }
{
    let mut place = 0;
    for (count, point) in points.iter().enumerate() {
        if point.gap > from - place {
            return Before { count, place };
        }
        place += point.gap;
    }
    Before {
        count: points.len(),
        place,
    }
}

/// The first point at a place or after it, and its distance from there.
#[derive(Clone, Copy, Debug)]
pub struct Behind {
    pub number: usize,
    pub distance: usize,
}

/// The first point at a place or after it, of those after the ones before another place.
pub fn point_behind(points: &[Point], known: Before, place: usize) -> Behind
    requires within { known.count ≤ length points.now }
    requires order { known.place ≤ place }
    requires place { known.place ≡ span (take known.count points.now) }
    ensures order { known.count ≤ result.number }
    ensures within { result.number ≤ length points.now }
    ensures place { result.number < length points.now →
        span (take (result.number + 1) points.now) ≡ place + result.distance }
{
    let mut left = place - known.place;
    for number in known.count..points.len() {
        let gap = points[number].gap;
        if gap >= left {
            return Behind {
                number,
                distance: gap - left,
            };
        }
        left -= gap;
    }
    Behind {
        number: points.len(),
        distance: usize::MAX,
    }
}
