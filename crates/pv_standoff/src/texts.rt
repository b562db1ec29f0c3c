//! A text, cut from the left.

ghost use Rattle.std.specs.Prelude.{◌≡◌, ◌≢◌, [], drop, IfOk};
ghost use Rattle.pv_chars.specs.Texts.{joined};
ghost use Rattle.pv_chars.specs.Units.{units_in};
ghost use Rattle.pv_chars.specs.Utf8.{continues};
ghost use Rattle.pv_standoff.specs.Texts.{SpellsUnits};

use pv_chars::{NoMemory, Units, text_units};
use std::alloc::Global;

// Whether a byte continues the character of the byte before it (UTF-8).
fn continues(b: u8) -> bool
    ensures { result ≡ continues b }
{
    b >= 128 && b < 192
}

/// What stands after so many units.
pub(crate) fn behind_units(bytes: &[u8], count: usize) -> &[u8]
    ensures { result.now ≡ joined (drop count (units_in bytes.now)) }
{
    let mut begun = 0;
    let mut in_reference = false;
    'bytes: for (at, b) in bytes.iter().enumerate() {
        if in_reference {
            in_reference = *b != b';';
        } else if !continues(*b) {
            if begun == count {
                return bytes.split_at(at).1;
            }
            begun += 1;
            in_reference = *b == b'&';
        }
    }
    &[]
}

/// The text that the bytes are, or want of memory.
pub(crate) fn text_of(alloc: Global, bytes: &[u8]) -> Result<Units, NoMemory>
    requires some { bytes.now ≢ [] }
    requires units { SpellsUnits bytes.now (units_in bytes.now) }
    ensures { IfOk result (λ units. units ≡ units_in bytes.now) }
{
    let Ok(units) = text_units(alloc, bytes) else {
        return Err(NoMemory);
    };
    Ok(units)
}
