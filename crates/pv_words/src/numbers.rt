//! Numbers, written in decimal digits, and read from the front of some bytes in one pass.

ghost use Rattle.std.specs.Prelude.{◌≡◌, ◌<◌, ◌≤◌, ◌+◌, ◌*◌, ◌++◌, ◌↔◌, ℕ, List, IsTrue, OnOk};
ghost use Rattle.std.specs.Prelude.{MatchOption, codes, decimal};
ghost use Rattle.std.specs.Char.{IsAsciiDigit};
ghost use Rattle.pv_words.specs.Numbers.{BeginsNoDigit, GoesOnTo, IsNumberAt, IsNumberBefore};
ghost use Rattle.pv_words.specs.Numbers.{IsNumberThen, MAX_NUMBER, number_spelled, numbers_text};

use itoa::Buffer;
use std::alloc::AllocError;

/// Appends a number in decimal digits, without leading zeros.
pub fn push_number(text: &mut Vec<u8>, number: u64) -> Result<(), AllocError>
    ensures { OnOk result (text.new.items ≡ text.old.items ++ decimal number) }
{
    let mut buffer = Buffer::new();
    text.extend_from_slice(buffer.format(number).as_bytes())?;
    Ok(())
}

/// Appends a number after a blank.
pub fn push_next_number(text: &mut Vec<u8>, number: u64) -> Result<(), AllocError>
    ensures { OnOk result (text.new.items ≡ text.old.items ++ (codes " " ++ decimal number)) }
{
    text.push(b' ')?;
    push_number(text, number)
}

/// Appends numbers, each after a blank, as ` 1 20`.
pub fn push_numbers(text: &mut Vec<u8>, numbers: &[u32]) -> Result<(), AllocError>
    ensures { OnOk result (text.new.items ≡ text.old.items ++ numbers_text numbers.now) }
{
    for number in numbers {
        push_next_number(text, u64::from(*number))?;
    }
    Ok(())
}

// The value of a digit.
fn digit_of(byte: u8) -> Option<u32>
    ensures { MatchOption result (IsAsciiDigit byte → ⊥) (λ d. (byte ≡ 48 + d) × (d < 10)) }
{
    if !byte.is_ascii_digit() {
        return None;
    }
    Some(u32::from(byte - b'0'))
}

// The number with one more digit after it.
fn with_digit(number: u32, digit: u32) -> Option<u32>
    requires { digit < 10 }
    ensures { MatchOption result (MAX_NUMBER < number * 10 + digit)
        (λ next. (next ≡ number * 10 + digit) × (next ≤ MAX_NUMBER)) }
{
    let next = u64::from(number) * 10 + u64::from(digit);
    if u64::from(u32::MAX) < next {
        return None;
    }
    Some(next as u32)
}

// Whether no digit stands at the front.
fn begins_no_digit(bytes: &[u8]) -> bool
    ensures { IsTrue result ↔ BeginsNoDigit bytes.now }
{
    match bytes {
        [] => true,
        [byte, ..] => digit_of(*byte).is_none(),
    }
}

// The number that the digits at the front make of a first one, and what stands after them.
fn go_on(first: u32, bytes: &[u8]) -> Option<(u32, &[u8])>
    ensures { MatchOption result
        ((n : ℕ) (rest : List ℕ) → GoesOnTo first bytes.now n rest → ⊥)
        (λ r. GoesOnTo first bytes.now r.0 r.1.now) }
{
    let mut number = first;
    let mut rest = bytes;
    'digits: while let [byte, more @ ..] = rest {
        let Some(digit) = digit_of(*byte) else {
            return Some((number, rest));
        };
        number = with_digit(number, digit)?;
        rest = more;
    }
    Some((number, rest))
}

// The number that the digits at the front write, and what stands after them.
fn number_at(bytes: &[u8]) -> Option<(u32, &[u8])>
    ensures { MatchOption result
        ((n : ℕ) (rest : List ℕ) → IsNumberAt bytes.now n rest → ⊥)
        (λ r. IsNumberAt bytes.now r.0 r.1.now) }
{
    let [byte, behind @ ..] = bytes else {
        return None;
    };
    let first = digit_of(*byte)?;
    if first != 0 {
        return go_on(first, behind);
    }
    if !begins_no_digit(behind) {
        return None;
    }
    Some((0, behind))
}

// The number before this byte, which is no digit, and what stands after the byte.
fn number_then(stop: u8, bytes: &[u8]) -> Option<(u32, &[u8])>
    requires { IsAsciiDigit stop → ⊥ }
    ensures { MatchOption result
        ((n : ℕ) (rest : List ℕ) → IsNumberThen stop bytes.now n rest → ⊥)
        (λ r. IsNumberThen stop bytes.now r.0 r.1.now) }
{
    let (number, behind) = number_at(bytes)?;
    let [byte, rest @ ..] = behind else {
        return None;
    };
    if *byte != stop {
        return None;
    }
    Some((number, rest))
}

/// The number before the first blank, at most 4294967295 and without leading zeros, and what stands
/// after the blank.
pub fn next_number(bytes: &[u8]) -> Option<(u32, &[u8])>
    ensures { MatchOption result
        ((n : ℕ) (rest : List ℕ) → IsNumberBefore bytes.now n rest → ⊥)
        (λ r. IsNumberBefore bytes.now r.0 r.1.now) }
{
    number_then(b' ', bytes)
}

/// The number before the first LF, at most 4294967295 and without leading zeros, and what stands
/// after the LF.
pub fn last_number(bytes: &[u8]) -> Option<(u32, &[u8])>
    ensures { MatchOption result
        ((n : ℕ) (rest : List ℕ) → IsNumberThen 10 bytes.now n rest → ⊥)
        (λ r. IsNumberThen 10 bytes.now r.0 r.1.now) }
{
    number_then(b'\n', bytes)
}

/// The number that a word is: its decimal digits, at most 4294967295 and without leading zeros.
pub fn written_number(word: &[u8]) -> Option<u32>
    ensures { number_spelled word.now ≡ result }
{
    let (number, rest) = number_at(word)?;
    if !rest.is_empty() {
        return None;
    }
    Some(number)
}
