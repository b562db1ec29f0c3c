//! Values, one for each column.

ghost use Rattle.std.specs.Prelude.{◌≡◌, ◌<◌, ℕ, length};
ghost use Rattle.pv_productive.specs.Tables.{IsLowered, no_size, size_at};

use pv_productive::NO_SIZE;

/// The value at a number, or that of no derivation where there is none.
#[inline(always)]
pub fn value_at(values: &[u32], number: usize) -> u32
    ensures { result ≡ size_at values.now number }
{
    match values.get(number) {
        Some(value) => *value,
        None => NO_SIZE,
    }
}

/// Puts in a value where it is less than what stands there, and tells whether it was.
#[inline(always)]
pub fn lower(values: &mut [u32], number: usize, value: u32) -> bool
    requires { number < length values.old }
    ensures { IsLowered values.old values.new number value result }
{
    let is_less = value < values[number];
    if is_less {
        values[number] = value;
    }
    is_less
}

/// Forgets all values.
pub fn forget(values: &mut [u32])
    ensures blank { (s : ℕ) → size_at values.new s ≡ no_size }
{
    values.fill(NO_SIZE);
}
