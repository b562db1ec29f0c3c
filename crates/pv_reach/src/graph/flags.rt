//! Flags by numbers.

ghost use Rattle.std.specs.Prelude.{◌≡◌, ◌⊎◌, ℕ, false, length, slice_index_or, true};

/// Sets the flag of a number, where there is one.
pub fn set_flag(flags: &mut Vec<bool>, number: usize)
    ensures long { length flags.new.items ≡ length flags.old.items }
    ensures set { (x : ℕ) → slice_index_or flags.new.items x false ≡ true → (x ≡ number) ⊎
        (slice_index_or flags.old.items x false ≡ true) }
{
    if number < flags.len() {
        flags[number] = true;
    }
}
