//! Reads content particles (XML 1.0, section 3.2.1).

ghost use Rattle.std.specs.Prelude.{◌≡◌, ◌≤◌, ◌<◌, ◌^◌, suc, length, map, IfOk, IfSome};
ghost use Rattle.std.specs.Option.{option_map};
ghost use Rattle.pv_dtd.specs.PartReading.{word_at, with_operator, separator_at, group_of};
ghost use Rattle.pv_dtd.specs.PartReading.{group_from, others_at, group_at, bare_at, particle_at};
ghost use Rattle.pv_dtd.specs.NamedForms.{named_part, named_parts};

use crate::items::SpelledPart;
use pv_chars::NoMemory;
use pv_chars::char_reading::name_at;
use pv_chars::scan::{after_bytes, after_space};
use std::alloc::Global;

#[tactic(auto, unfolding(crate::specs::PartReading::word_at))]
fn word_at(bytes: &[u8]) -> Option<(SpelledPart<'_>, &[u8])>
    ensures read { option_map (λ r. (named_part r.0, r.1.now)) result ≡ word_at bytes.now }
    ensures within { IfSome result (λ r. length r.1.now ≤ length bytes.now) }
{
    let (name, rest) = name_at(bytes)?;
    Some((SpelledPart::Name(name), rest))
}

#[tactic(auto, unfolding(crate::specs::PartReading::with_operator))]
fn with_operator<'a>(
    alloc: Global,
    part: SpelledPart<'a>,
    rest: &'a [u8],
) -> Result<(SpelledPart<'a>, &'a [u8]), NoMemory>
    ensures read { IfOk result
        (λ r. (named_part r.0, r.1.now) ≡ with_operator (named_part part.entry) rest.now) }
    ensures within { IfOk result (λ r. length r.1.now ≤ length rest.now) }
{
    match rest {
        [b'?', after @ ..] => Ok((SpelledPart::Opt(Box::new(alloc, part)?), after)),
        [b'*', after @ ..] => Ok((SpelledPart::Star(Box::new(alloc, part)?), after)),
        [b'+', after @ ..] => Ok((SpelledPart::Plus(Box::new(alloc, part)?), after)),
        _ => Ok((part, rest)),
    }
}

#[tactic(auto, unfolding(crate::specs::PartReading::separator_at))]
fn separator_at(bytes: &[u8]) -> u8
    ensures { result ≡ separator_at bytes.now }
{
    match bytes {
        [b'|', ..] => b'|',
        _ => b',',
    }
}

fn group_of<'a>(separator: u8, members: Vec<SpelledPart<'a>>) -> SpelledPart<'a>
    ensures { named_part result ≡ group_of separator (named_parts members.entry.items) }
{
    if separator == b'|' {
        SpelledPart::Choice(members)
    } else {
        SpelledPart::Seq(members)
    }
}

/// The content particle at the front (XML 1.0, section 3.2.1): a name, a choice or a sequence, with
/// its operator. Groups stand one inside another at most `depth` deep.
#[cycle(particles)]
#[tactic(auto, unfolding(crate::specs::PartReading::particle_from))]
pub fn particle_at<'a>(
    alloc: Global,
    bytes: &'a [u8],
    depth: usize,
) -> Result<Option<(SpelledPart<'a>, &'a [u8])>, NoMemory>
    ensures read { IfOk result
        (λ o. option_map (λ r. (named_part r.0, r.1.now)) o ≡ particle_at depth bytes.now) }
    ensures within { IfOk result (λ o. IfSome o (λ r. length r.1.now ≤ length bytes.now)) }
{
    let Some((part, rest)) = bare_at(alloc, bytes, depth)? else {
        return Ok(None);
    };
    Ok(Some(with_operator(alloc, part, rest)?))
}

#[cycle(particles)]
#[tactic(auto, unfolding(crate::specs::PartReading::bare_at))]
fn bare_at<'a>(
    alloc: Global,
    bytes: &'a [u8],
    depth: usize,
) -> Result<Option<(SpelledPart<'a>, &'a [u8])>, NoMemory>
    ensures read { IfOk result
        (λ o. option_map (λ r. (named_part r.0, r.1.now)) o ≡ bare_at depth bytes.now) }
    ensures within { IfOk result (λ o. IfSome o (λ r. length r.1.now ≤ length bytes.now)) }
{
    match after_bytes(b"(", bytes) {
        Some(_) if depth == 0 => Ok(None),
        Some(inside) => group_at(alloc, inside, depth - 1),
        None => Ok(word_at(bytes)),
    }
}

#[cycle(particles)]
#[tactic(auto, unfolding(crate::specs::PartReading::group_at))]
fn group_at<'a>(
    alloc: Global,
    bytes: &'a [u8],
    depth: usize,
) -> Result<Option<(SpelledPart<'a>, &'a [u8])>, NoMemory>
    ensures read { IfOk result
        (λ o. option_map (λ r. (named_part r.0, r.1.now)) o ≡
        group_at (particle_at depth) bytes.now) }
    ensures within { IfOk result (λ o. IfSome o (λ r. length r.1.now ≤ length bytes.now)) }
{
    let Some((first, rest)) = particle_at(alloc, after_space(bytes), depth)? else {
        return Ok(None);
    };
    let separator = separator_at(after_space(rest));
    others_at(alloc, separator, first, rest, depth)
}

// The others of a group, after its first member.
#[cycle(particles)]
fn others_at<'a>(
    alloc: Global,
    separator: u8,
    first: SpelledPart<'a>,
    behind: &'a [u8],
    depth: usize,
) -> Result<Option<(SpelledPart<'a>, &'a [u8])>, NoMemory>
    ensures read { IfOk result (λ o. option_map (λ r. (named_part r.0, r.1.now)) o
        ≡ group_from separator (named_part first.entry)
        (others_at (particle_at depth) separator (suc (length behind.now)) behind.now)) }
    ensures within { IfOk result (λ o. IfSome o (λ r. length r.1.now ≤ length behind.now)) }
{
    let mut members = vec![in alloc; first]?;
    let mut rest = behind;
    'members: loop {
        let place = after_space(rest);
        if let Some(after) = after_bytes(b")", place) {
            return Ok(Some((group_of(separator, members), after)));
        }
        let Some(after) = after_bytes(&[separator], place) else {
            return Ok(None);
        };
        let Some((next, behind_next)) = particle_at(alloc, after_space(after), depth)? else {
            return Ok(None);
        };
        members.push(next)?;
        rest = behind_next;
    }
}
