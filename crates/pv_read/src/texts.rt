//! Text runs (XML 1.0, section 2.4).

ghost use Rattle.std.specs.Prelude.{◌<◌, length, IfOk, IfSome, MatchOption};
ghost use Rattle.pv_read.specs.TextRuns.{BeginsText, BeginsNoText};

use crate::forms::run_at;
use pv_chars::{NoMemory, TextError, Units, text_units};
use std::alloc::Global;

/// The text run at the front as its units, where each of its references is known, and what stands
/// after it.
pub fn text_at(alloc: Global, bytes: &[u8]) -> Result<Option<(Units, &[u8])>, NoMemory>
    ensures text { IfOk result (λ t. MatchOption t (BeginsNoText bytes.now)
        (λ r. BeginsText bytes.now r.0 r.1.now)) }
    ensures within { IfOk result (λ t. IfSome t (λ r. length r.1.now < length bytes.now)) }
{
    let (run, rest) = run_at(bytes);
    match text_units(alloc, run) {
        Ok(units) => Ok(Some((units, rest))),
        Err(error) => match error {
            TextError::NoMemory => Err(NoMemory),
            _ => Ok(None),
        },
    }
}
