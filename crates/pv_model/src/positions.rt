//! How far a word has come in a content particle: for each position whether it is reached.
//!
//! Each name has a position, and each repetition has one before its member's. The first is reached
//! if the names read so far can end with it, and the second if they can end a round.

ghost use Rattle.std.specs.Prelude.{◌≡◌, ◌+◌, ◌≤◌, ◌++◌, ◌&&◌, ◌||◌, length, OnOk};
ghost use Rattle.pv_model.specs.Plain.{name as one_name, seq, choice, plus};
ghost use Rattle.pv_model.specs.Positions.{position_count, unreached_positions, may_be_empty};
ghost use Rattle.pv_model.specs.Moves.{Moves};
ghost use Rattle.pv_model.specs.PlainForms.{plain_part, plain_parts};

use crate::models::{NameId, NoMemory, Part};

/// Whether the empty word is a word of the part.
#[cycle(may_be_empty)]
pub fn may_be_empty(part: &Part) -> bool
    ensures { result ≡ may_be_empty (plain_part part.now) }
{
    match part {
        Part::Name(_) => false,
        Part::Seq(parts) => all_may_be_empty(parts),
        Part::Choice(parts) => some_may_be_empty(parts),
        Part::Opt(_) => true,
        Part::Star(_) => true,
        Part::Plus(inner) => may_be_empty(inner),
    }
}

#[cycle(may_be_empty)]
fn all_may_be_empty(parts: &[Part]) -> bool
    ensures { result ≡ may_be_empty (seq (plain_parts parts.now)) }
{
    let mut all = true;
    for part in parts {
        all = all && may_be_empty(part);
    }
    all
}

#[cycle(may_be_empty)]
fn some_may_be_empty(parts: &[Part]) -> bool
    ensures { result ≡ may_be_empty (choice (plain_parts parts.now)) }
{
    let mut some = false;
    for part in parts {
        some = some || may_be_empty(part);
    }
    some
}

/// Appends the part's positions before the first name is read, none of them reached.
#[cycle(push_positions)]
pub fn push_positions(part: &Part, positions: &mut Vec<bool>) -> Result<(), NoMemory>
    ensures { OnOk result (positions.new.items ≡
        positions.old.items ++ unreached_positions (plain_part part.now)) }
{
    match part {
        Part::Name(_) => {
            positions.push(false)?;
            Ok(())
        }
        Part::Seq(parts) => push_all_positions(parts, positions),
        Part::Choice(parts) => push_all_positions(parts, positions),
        Part::Opt(inner) => push_positions(inner, positions),
        Part::Star(inner) => {
            positions.push(false)?;
            push_positions(inner, positions)
        }
        Part::Plus(inner) => {
            positions.push(false)?;
            push_positions(inner, positions)
        }
    }
}

#[cycle(push_positions)]
fn push_all_positions(parts: &[Part], positions: &mut Vec<bool>) -> Result<(), NoMemory>
    ensures { OnOk result (positions.new.items ≡
        positions.old.items ++ unreached_positions (seq (plain_parts parts.now))) }
{
    for part in parts {
        push_positions(part, positions)?;
    }
    Ok(())
}

/// What one more name of a word did in a part.
#[derive(Clone, Copy)]
pub struct Moved {
    /// The place of the first position after those of the part.
    pub next: usize,

    /// Whether the names before this one were a word of the part.
    pub was_end: bool,

    /// Whether they are one with it.
    pub is_end: bool,

    /// Whether a position of the part is reached. Without one, no names after this one make a
    /// word of it.
    pub is_reached: bool,

    /// Whether the empty word is a word of the part.
    pub may_be_empty: bool,
}

impl Moved {
    /// Whether the part after this one may begin with the name, where this one may or may not.
    fn enters_next(self, entered: bool) -> bool
        ensures { result ≡ (self.was_end || entered && self.may_be_empty) }
    {
        self.was_end || entered && self.may_be_empty
    }

    /// What a name makes of a repetition of the part, of which a round could end before the name or
    /// not.
    fn repetition(self, was_end: bool) -> Moved
        ensures next { result.next ≡ self.next }
        ensures was_end { result.was_end ≡ was_end }
        ensures is_end { result.is_end ≡ self.is_end }
        ensures is_reached { result.is_reached ≡ (self.is_reached || self.is_end) }
        ensures may_be_empty { result.may_be_empty ≡ self.may_be_empty }
    {
        Moved {
            was_end,
            is_reached: self.is_reached || self.is_end,
            ..self
        }
    }

    /// What a name makes of the parts so far and the one that follows them.
    fn followed_by(self, part: Moved) -> Moved
        ensures next { result.next ≡ part.next }
        ensures was_end { result.was_end ≡ (part.was_end || self.was_end && part.may_be_empty) }
        ensures is_end { result.is_end ≡ (part.is_end || self.is_end && part.may_be_empty) }
        ensures is_reached { result.is_reached ≡ (self.is_reached || part.is_reached) }
        ensures may_be_empty { result.may_be_empty ≡ (self.may_be_empty && part.may_be_empty) }
    {
        Moved {
            next: part.next,
            was_end: part.was_end || self.was_end && part.may_be_empty,
            is_end: part.is_end || self.is_end && part.may_be_empty,
            is_reached: self.is_reached || part.is_reached,
            may_be_empty: self.may_be_empty && part.may_be_empty,
        }
    }

    /// What a name makes of the parts so far and one more to choose from.
    fn or(self, part: Moved) -> Moved
        ensures next { result.next ≡ part.next }
        ensures was_end { result.was_end ≡ (self.was_end || part.was_end) }
        ensures is_end { result.is_end ≡ (self.is_end || part.is_end) }
        ensures is_reached { result.is_reached ≡ (self.is_reached || part.is_reached) }
        ensures may_be_empty { result.may_be_empty ≡ (self.may_be_empty || part.may_be_empty) }
    {
        Moved {
            next: part.next,
            was_end: self.was_end || part.was_end,
            is_end: self.is_end || part.is_end,
            is_reached: self.is_reached || part.is_reached,
            may_be_empty: self.may_be_empty || part.may_be_empty,
        }
    }
}

/// Moves the part's positions, which begin at a place, over one more name. The part may begin with
/// it if it is entered.
#[cycle(advance)]
#[inline(always)]
pub fn advance(part: &Part, entered: bool, name: NameId, positions: &mut [bool], at: usize) -> Moved
    requires { at + position_count (plain_part part.now) ≤ length positions.old }
    ensures { Moves (plain_part part.now) entered name.0 at positions.old positions.new result }
{
    // Most parts are names, and a name takes less than half the time outside the recursion.
    match part {
        Part::Name(own) => advance_name(*own, entered, name, positions, at),
        _ => advance_group(part, entered, name, positions, at),
    }
}

#[cycle(advance)]
#[inline(never)]
fn advance_group(
    part: &Part,
    entered: bool,
    name: NameId,
    positions: &mut [bool],
    at: usize,
) -> Moved
    requires { at + position_count (plain_part part.now) ≤ length positions.old }
    ensures { Moves (plain_part part.now) entered name.0 at positions.old positions.new result }
{
    match part {
        Part::Name(own) => advance_name(*own, entered, name, positions, at),
        Part::Seq(parts) => advance_in_order(parts, entered, name, positions, at),
        Part::Choice(parts) => advance_each(parts, entered, name, positions, at),
        Part::Opt(inner) => {
            let one = advance(inner, entered, name, positions, at);
            Moved {
                may_be_empty: true,
                ..one
            }
        }
        Part::Star(inner) => {
            let rounds = advance_rounds(inner, entered, name, positions, at);
            Moved {
                may_be_empty: true,
                ..rounds
            }
        }
        Part::Plus(inner) => advance_rounds(inner, entered, name, positions, at),
    }
}

fn advance_name(
    own: NameId,
    entered: bool,
    name: NameId,
    positions: &mut [bool],
    at: usize,
) -> Moved
    requires { at + position_count (one_name own.0) ≤ length positions.old }
    ensures { Moves (one_name own.0) entered name.0 at positions.old positions.new result }
{
    let was_end = positions[at];
    let is_end = entered && own == name;
    positions[at] = is_end;
    Moved {
        next: at + 1,
        was_end,
        is_end,
        is_reached: is_end,
        may_be_empty: false,
    }
}

#[cycle(advance)]
fn advance_rounds(
    inner: &Part,
    entered: bool,
    name: NameId,
    positions: &mut [bool],
    at: usize,
) -> Moved
    requires { at + position_count (plus (plain_part inner.now)) ≤ length positions.old }
    ensures { Moves (plus (plain_part inner.now)) entered name.0 at positions.old positions.new
        result }
{
    let was_end = positions[at];
    let entering = entered || was_end;
    let round = advance(inner, entering, name, positions, at + 1);
    positions[at] = round.is_end;
    round.repetition(was_end)
}

#[cycle(advance)]
fn advance_in_order(
    parts: &[Part],
    entered: bool,
    name: NameId,
    positions: &mut [bool],
    at: usize,
) -> Moved
    requires { at + position_count (seq (plain_parts parts.now)) ≤ length positions.old }
    ensures { Moves (seq (plain_parts parts.now)) entered name.0 at positions.old positions.new
        result }
{
    let mut all = Moved {
        next: at,
        was_end: false,
        is_end: false,
        is_reached: false,
        may_be_empty: true,
    };
    let mut entering = entered;
    for part in parts {
        let one = advance(part, entering, name, positions, all.next);
        entering = one.enters_next(entering);
        all = all.followed_by(one);
    }
    all
}

#[cycle(advance)]
fn advance_each(
    parts: &[Part],
    entered: bool,
    name: NameId,
    positions: &mut [bool],
    at: usize,
) -> Moved
    requires { at + position_count (choice (plain_parts parts.now)) ≤ length positions.old }
    ensures { Moves (choice (plain_parts parts.now)) entered name.0 at positions.old positions.new
        result }
{
    let mut some = Moved {
        next: at,
        was_end: false,
        is_end: false,
        is_reached: false,
        may_be_empty: false,
    };
    for part in parts {
        let one = advance(part, entered, name, positions, some.next);
        some = some.or(one);
    }
    some
}
