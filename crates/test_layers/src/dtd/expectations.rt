//! What a row of a table is to be.

use std::fmt::Debug;
use std::process::Abort;

/// The test ends at this row where it isn't as it is to be.
pub fn expect<D: Debug>(rt: &impl Abort, holds: bool, row: &D) {
    assert!(rt; holds, "{row:?}");
}
