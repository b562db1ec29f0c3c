//! Runs of bytes that are items by themselves.

ghost use Rattle.std.specs.Prelude.{◌≡◌, ◌≤◌, IsTrue, length, take};
ghost use Rattle.std.specs.List.{list_all};
ghost use Rattle.pv_params.specs.PlainBytes.{is_plain, IsBehindRun};
ghost use Rattle.pv_params.specs.PlainForms.{plain_mode};

use crate::text_mode::TextMode;
use pv_chars::scan::is_space;

// Whether a byte is an item of the mode by itself, and is copied.
fn is_plain(mode: TextMode, b: u8) -> bool
    ensures { result ≡ is_plain (plain_mode mode) b }
{
    match mode {
        TextMode::File(_) => is_space(b),
        TextMode::Between => is_space(b),
        TextMode::Inside => b != b'<' && b != b'>' && b != b'%' && b != b'\'' && b != b'"',
        TextMode::Value => b != b'%' && b != b'&',
    }
}

// How many bytes at the front are items of the mode by themselves.
fn run_length(mode: TextMode, bytes: &[u8]) -> usize
    ensures within { result ≤ length bytes.now }
    ensures are_plain { IsTrue (list_all (is_plain (plain_mode mode)) (take result bytes.now)) }
{
    let mut count = 0;
    for b in bytes {
        if !is_plain(mode, *b) {
            return count;
        }
        count += 1;
    }
    count
}

/// What stands after the bytes at the front that are items of the mode by themselves.
pub fn behind_run(mode: TextMode, bytes: &[u8]) -> &[u8]
    ensures run { IsBehindRun (plain_mode mode) bytes.now result.now }
    ensures within { length result.now ≤ length bytes.now }
{
    bytes.split_at(run_length(mode, bytes)).1
}
