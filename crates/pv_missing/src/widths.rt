//! How wide a list may be.

ghost use Rattle.std.specs.Prelude.{◌↔◌, IsTrue};
ghost use Rattle.pv_dtd.specs.PlainForms.{plain_dtd};
ghost use Rattle.pv_missing.specs.Widths.{FitsVerdict, FitsWeights};

use pv_dtd::Dtd;

/// The most numbers, one for each column and each place of a word, that a verdict may take.
const MAX_VERDICT_NUMBERS: u128 = 67_108_864;

/// The most, one for each column and each span of a word, that weights may take.
const MAX_WEIGHT_NUMBERS: u64 = 16_777_216;

/// Whether a word of so many tokens isn't too wide for a verdict.
pub fn is_narrow(dtd: &Dtd, tokens: u64) -> bool
    ensures { IsTrue result ↔ FitsVerdict (plain_dtd dtd.now) tokens }
{
    (u128::from(tokens) + 1) * u128::from(dtd.columns()) <= MAX_VERDICT_NUMBERS
}

/// Whether a word of so many tokens isn't too wide for weights.
pub fn is_narrow_for_weights(dtd: &Dtd, tokens: u64) -> bool
    ensures { IsTrue result ↔ FitsWeights (plain_dtd dtd.now) tokens }
{
    let columns = u64::from(dtd.columns());
    if columns == 0 {
        return true;
    }
    if tokens >= 8192 {
        return false;
    }
    let places = tokens + 1;
    places * (places + 1) / 2 * columns <= MAX_WEIGHT_NUMBERS
}
