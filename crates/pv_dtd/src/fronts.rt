//! What stands at the front of a text outside quotes.

ghost use Rattle.std.specs.Prelude.{◌≡◌, ◌≤◌, ◌<◌, None, length, IfSome};
ghost use Rattle.std.specs.Option.{option_map};
ghost use Rattle.pv_chars.specs.Declarations.{is_quote, is_one_of};
ghost use Rattle.pv_dtd.specs.ItemReading.{stop_at, after_stop, after_white};

use pv_chars::char_reading::is_one_of;
use pv_chars::scan::is_space;

fn is_quote(b: u8) -> bool
    ensures { result ≡ is_quote b }
{
    b == b'"' || b == b'\''
}

// The first byte outside quotes that is one of these, and what stands after it.
fn stop_at<'a>(stops: &[u8], bytes: &'a [u8]) -> Option<(u8, &'a [u8])>
    ensures stop { option_map (λ r. (r.0, r.1.now)) result ≡
        stop_at (is_one_of stops.now) None bytes.now }
    ensures within { IfSome result (λ r. length r.1.now < length bytes.now) }
{
    let mut quote = None;
    let mut rest = bytes;
    while let [b, after @ ..] = rest {
        match quote {
            Some(open) => {
                if *b == open {
                    quote = None;
                }
            }
            None => {
                if is_quote(*b) {
                    quote = Some(*b);
                } else if is_one_of(stops, *b) {
                    return Some((*b, after));
                }
            }
        }
        rest = after;
    }
    None
}

/// What stands after the first of these bytes outside quotes, where it is this one.
#[tactic(auto, unfolding(crate::specs::ItemReading::where_it_is))]
pub fn after_stop<'a>(byte: u8, stops: &[u8], bytes: &'a [u8]) -> Option<&'a [u8]>
    ensures after { option_map (λ r. r.now) result ≡ after_stop byte stops.now bytes.now }
    ensures within { IfSome result (λ r. length r.now < length bytes.now) }
{
    match stop_at(stops, bytes) {
        Some((stop, rest)) if stop == byte => Some(rest),
        _ => None,
    }
}

/// What stands after one byte of white space.
#[tactic(auto, unfolding(crate::specs::ItemReading::after_white))]
pub fn after_white(bytes: &[u8]) -> Option<&[u8]>
    ensures after { option_map (λ r. r.now) result ≡ after_white bytes.now }
    ensures within { IfSome result (λ r. length r.now ≤ length bytes.now) }
{
    match bytes {
        [b, rest @ ..] if is_space(*b) => Some(rest),
        _ => None,
    }
}
