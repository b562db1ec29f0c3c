//! What a row of a table in a test is to be.

use std::fmt::Debug;
use std::test::Fail;

/// A `Fail` that shows the row, where it isn't as it is to be.
pub fn expect<D: Debug>(holds: bool, row: &D) -> Result<(), Fail> {
    if holds {
        return Ok(());
    }
    Err(Fail::new(format_args!("{row:?}")))
}
