//! Paths as words, written and read.

ghost use Rattle.std.specs.Prelude.{◌≡◌, ◌++◌, IfOk, OnOk};
ghost use Rattle.pv_words.specs.Paths.{path_spelled, path_text, places_text};

use crate::numbers::{push_number, written_number};
use pv_chars::NoMemory;
use pv_chars::delimiters::up_to_byte;
use pv_tree::Path;
use std::alloc::{AllocError, Global};

// Appends each place after a dot.
fn push_places(text: &mut Vec<u8>, places: &[u32]) -> Result<(), AllocError>
    ensures { OnOk result (text.new.items ≡ text.old.items ++ places_text places.now) }
{
    for place in places {
        text.extend_from_slice(b".")?;
        push_number(text, u64::from(*place))?;
    }
    Ok(())
}

/// Appends a path: its places with dots between, as `0.2.1`, and `.` for the document node.
pub fn push_path(text: &mut Vec<u8>, places: &[u32]) -> Result<(), AllocError>
    ensures { OnOk result (text.new.items ≡ text.old.items ++ path_text places.now) }
{
    match places {
        [] => {
            text.extend_from_slice(b".")?;
            Ok(())
        }
        [first, rest @ ..] => {
            push_number(text, u64::from(*first))?;
            push_places(text, rest)
        }
    }
}

/// The path that a word is: `.`, or the numbers of its places with dots between, or `None` where it
/// is no path.
pub fn written_path(alloc: Global, word: &[u8]) -> Result<Option<Path>, NoMemory>
    ensures { IfOk result (λ path. path_spelled word.now ≡ path) }
{
    if word == b".".as_slice() {
        return Ok(Some(Path::new(alloc, &[])?));
    }
    let mut places = Vec::new(alloc);
    let mut rest = word;
    'places: while let Some((number, after)) = up_to_byte(b'.', rest) {
        let Some(place) = written_number(number) else {
            return Ok(None);
        };
        places.push(place)?;
        rest = after;
    }
    let Some(place) = written_number(rest) else {
        return Ok(None);
    };
    places.push(place)?;
    Ok(Some(Path::new(alloc, &places)?))
}
