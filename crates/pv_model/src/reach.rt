//! How far a long word has come in a content particle that is laid out.

ghost use Rattle.std.specs.Prelude.{◌≡◌, ◌&&◌, ◌||◌, [], ◌∷◌, ◌++◌, OnOk, IfOk, if◌then◌else◌};
ghost use Rattle.std.specs.Prelude.{false};
ghost use Rattle.pv_model.specs.PlainForms.{plain_layout};
ghost use Rattle.pv_model.specs.Layouts.{AdvancesFrom, IsSplit, repeated};

use crate::layout::ModelLayout;
use crate::models::NoMemory;
use std::alloc::AllocFailed;

/// Why a word wasn't gone over to its end.
#[derive(Clone, Copy, Debug, PartialEq, Eq)]
pub enum Stop {
    /// There was no memory.
    NoMemory,
    /// A name reaches more places than were allowed for.
    TooMany,
}

impl From<NoMemory> for Stop {
    fn from(_: NoMemory) -> Stop {
        Stop::NoMemory
    }
}

impl<T: Drop> From<AllocFailed<T>> for Stop {
    fn from(_: AllocFailed<T>) -> Stop {
        Stop::NoMemory
    }
}

/// Whether the names before one more name were a word of a particle, and whether they are one with
/// it.
#[derive(Clone, Copy)]
pub struct Ends {
    pub was_end: bool,
    pub is_end: bool,
}

impl Ends {
    /// Neither.
    fn none() -> Ends
        ensures was_end { result.was_end ≡ false }
        ensures is_end { result.is_end ≡ false }
    {
        Ends {
            was_end: false,
            is_end: false,
        }
    }

    /// Whether what stands after the particle may begin with the name.
    fn enters_next(self, entered: bool, may_be_empty: bool) -> bool
        ensures { result ≡ (self.was_end || entered && may_be_empty) }
    {
        self.was_end || entered && may_be_empty
    }

    /// Whether the names are a word of the particle with a second one after it.
    fn followed_by(self, second: Ends, second_may_be_empty: bool) -> Ends
        ensures was_end { result.was_end ≡
            (second.was_end || self.was_end && second_may_be_empty) }
        ensures is_end { result.is_end ≡ (second.is_end || self.is_end && second_may_be_empty) }
    {
        Ends {
            was_end: second.was_end || self.was_end && second_may_be_empty,
            is_end: second.is_end || self.is_end && second_may_be_empty,
        }
    }

    /// Whether the names are a word of the particle or of a second one.
    fn or(self, second: Ends) -> Ends
        ensures was_end { result.was_end ≡ (self.was_end || second.was_end) }
        ensures is_end { result.is_end ≡ (self.is_end || second.is_end) }
    {
        Ends {
            was_end: self.was_end || second.was_end,
            is_end: self.is_end || second.is_end,
        }
    }
}

/// Appends to `next` the places that one more name reaches, from those reached before it and the
/// places that have the name. The particle may begin with the name if it is entered. It is
/// `TooMany` where `next` would have more than `most`.
///
/// A member is passed over where nothing in it is reached, and it isn't entered or doesn't have
/// the name. So the steps are those from the top to the places that are given.
#[cycle(advance)]
pub fn advance(
    layout: &ModelLayout,
    entered: bool,
    name: u32,
    reached: &[usize],
    called: &[usize],
    next: &mut Vec<usize>,
    most: usize,
) -> Result<Ends, Stop>
    ensures { IfOk result
        (λ e. AdvancesFrom (plain_layout layout.now) entered name reached.now called.now
        next.old.items next.new.items e.was_end e.is_end) }
{
    if reached.is_empty() && (!entered || called.is_empty()) {
        return Ok(Ends::none());
    }
    match layout {
        ModelLayout::Nothing | ModelLayout::Blank => Ok(Ends::none()),
        ModelLayout::Name { place, name: own } => {
            let is_end = entered && *own == name;
            end_at(*place, !reached.is_empty(), is_end, next, most)
        }
        ModelLayout::InOrder {
            middle,
            first_may_be_empty,
            second_may_be_empty,
            first,
            second,
        } => {
            let (reached_first, reached_second) = split(reached, *middle);
            let (called_first, called_second) = split(called, *middle);
            let front = advance(
                first,
                entered,
                name,
                reached_first,
                called_first,
                next,
                most,
            )?;
            let enters = front.enters_next(entered, *first_may_be_empty);
            let back = advance(
                second,
                enters,
                name,
                reached_second,
                called_second,
                next,
                most,
            )?;
            Ok(front.followed_by(back, *second_may_be_empty))
        }
        ModelLayout::Either {
            middle,
            first,
            second,
        } => {
            let (reached_first, reached_second) = split(reached, *middle);
            let (called_first, called_second) = split(called, *middle);
            let front = advance(
                first,
                entered,
                name,
                reached_first,
                called_first,
                next,
                most,
            )?;
            let back = advance(
                second,
                entered,
                name,
                reached_second,
                called_second,
                next,
                most,
            )?;
            Ok(front.or(back))
        }
        ModelLayout::Opt(member) => advance(member, entered, name, reached, called, next, most),
        ModelLayout::Plus { place, member } => {
            let (inner, own) = split(reached, *place);
            let was_end = !own.is_empty();
            let round = advance(member, entered || was_end, name, inner, called, next, most)?;
            end_at(*place, was_end, round.is_end, next, most)
        }
    }
}

/// The ends of a name or a repetition, whose place is appended if it is reached.
fn end_at(
    place: usize,
    was_end: bool,
    is_end: bool,
    next: &mut Vec<usize>,
    most: usize,
) -> Result<Ends, Stop>
    ensures ends { IfOk result (λ e. (e.was_end ≡ was_end) × (e.is_end ≡ is_end)) }
    ensures next { OnOk result (next.new.items ≡
        next.old.items ++ (if is_end then place ∷ [] else [])) }
{
    if is_end {
        if next.len() >= most {
            return Err(Stop::TooMany);
        }
        next.push(place)?;
    }
    Ok(Ends { was_end, is_end })
}

/// The places before the middle, and those from it on, of places in order.
fn split(places: &[usize], middle: usize) -> (&[usize], &[usize])
    ensures { IsSplit middle places.now result.0.now result.1.now }
{
    places.split_at(places.partition_point(|place| *place < middle))
}
