//! The values of a row.

ghost use Rattle.std.specs.Prelude.{ℕ, List, IfOk, MatchOption};
ghost use Rattle.pv_denial_text.specs.Fronts.{AreValueWords};

use pv_chars::NoMemory;
use pv_denial::MAX_VALUES;
use pv_words::{next_number, written_number};
use std::alloc::Global;

// At most how many values some bytes are.
fn room_for(bytes: &[u8]) -> usize {
    let blanks = bytes.iter().filter(|byte| **byte == b' ').count();
    if blanks < MAX_VALUES as usize {
        blanks + 1
    } else {
        MAX_VALUES as usize
    }
}

/// The values that some bytes are.
pub fn values_of(alloc: Global, bytes: &[u8]) -> Result<Option<Vec<u32>>, NoMemory>
    ensures { IfOk result (λ found. MatchOption found
        ((values : List ℕ) → AreValueWords bytes.now values → ⊥)
        (λ values. AreValueWords bytes.now values.items)) }
{
    let mut values = Vec::with_capacity(alloc, room_for(bytes))?;
    let mut rest = bytes;
    'values: while let Some((value, after)) = next_number(rest) {
        values.push(value)?;
        rest = after;
    }
    let Some(last) = written_number(rest) else {
        return Ok(None);
    };
    values.push(last)?;
    Ok(Some(values))
}
