//! Lines of ranges.

ghost use Rattle.std.specs.Prelude.{◌≡◌, ◌≤◌, ◌<◌, [], ◌∷◌, ◌⊎◌, length, None, Some, Ok, Err, IfOk};
ghost use Rattle.std.specs.Prelude.{IfSome, MatchOption, MatchResult};
ghost use Rattle.pv_words.specs.Lines.{lines_of};
ghost use Rattle.pv_standoff.specs.Lines.{RangesMean, number_at, range_of};
ghost use Rattle.pv_standoff.specs.Ranges.{AreNamed, MAX_RANGES as MAX_RANGE_COUNT};

use crate::errors::RangesError;
use crate::ranges::{Range, Ranges};
use pv_chars::delimiters::up_to_byte;
use pv_chars::{NoMemory, bytes_of, is_name};
use pv_words::{without_returns, written_number};
use std::alloc::Global;

// The most ranges.
const MAX_RANGES: usize = 1_048_576;

// The first line, without the CR bytes at its end, and what stands after its LF.
fn line_at(bytes: &[u8]) -> Option<(&[u8], &[u8])>
    ensures lines { MatchOption result (lines_of bytes.now ≡ [])
        (λ r. lines_of bytes.now ≡ r.0.now ∷ lines_of r.1.now) }
    ensures within { IfSome result (λ r. length r.1.now < length bytes.now) }
{
    if bytes.is_empty() {
        return None;
    }
    match up_to_byte(b'\n', bytes) {
        Some((line, rest)) => Some((without_returns(line), rest)),
        None => Some((without_returns(bytes), &[])),
    }
}

// The number before the first blank, and what stands after the blank.
fn number_at(bytes: &[u8]) -> Option<(u32, &[u8])>
    ensures { MatchOption result (number_at bytes.now ≡ None)
        (λ r. number_at bytes.now ≡ Some (r.0, r.1.now)) }
{
    let (word, rest) = up_to_byte(b' ', bytes)?;
    let number = written_number(word)?;
    Some((number, rest))
}

// The range that a line is.
fn read_range(alloc: Global, line: &[u8]) -> Result<Option<Range>, NoMemory>
    ensures { IfOk result (λ range. range_of line.now ≡ range) }
{
    let Some((from, rest)) = number_at(line) else {
        return Ok(None);
    };
    let Some((to, rest)) = number_at(rest) else {
        return Ok(None);
    };
    let Some((level, name)) = number_at(rest) else {
        return Ok(None);
    };
    if !is_name(name) {
        return Ok(None);
    }
    let name = bytes_of(alloc, name)?;
    Ok(Some(Range {
        from,
        to,
        level,
        name,
    }))
}

/// The ranges that lines `FROM TO LEVEL NAME` spell, one each, or the first line in fault. A line
/// ends at an LF or at the end of the bytes; CR bytes at its end don't count. A number is decimal
/// digits without a leading zero, at most 4294967295, and a name a Name (XML 1.0, section 2.3).
pub fn read_ranges(alloc: Global, bytes: &[u8]) -> Result<Ranges, RangesError>
    ensures read { MatchResult result (λ ranges. RangesMean bytes.now (Ok ranges))
        (λ e. (e ≡ RangesError.NoMemory) ⊎ RangesMean bytes.now (Err e)) }
    ensures named { IfOk result (λ ranges. AreNamed ranges) }
    ensures few { IfOk result (λ ranges. length ranges ≤ MAX_RANGE_COUNT) }
{
    let mut ranges: Vec<Range> = Vec::new(alloc);
    let mut rest = bytes;
    'lines: while let Some((line, more)) = line_at(rest) {
        if ranges.len() == MAX_RANGES {
            return Err(RangesError::Limit);
        }
        let Some(range) = read_range(alloc, line)? else {
            return Err(RangesError::Syntax(ranges.len() as u64));
        };
        ranges.push(range)?;
        rest = more;
    }
    Ok(Ranges::of(ranges))
}
