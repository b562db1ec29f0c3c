//! What stands at the front of a text, as the functions of `specs/ItemReading.antt` read it.

ghost use Rattle.std.specs.Prelude.{◌≡◌};
ghost use Rattle.std.specs.Option.{option_map};
ghost use Rattle.pv_params.specs.ItemReading.{front_of, named_at};

use pv_chars::char_reading::name_at;
use pv_chars::scan::after_bytes;

/// What stands before this rest.
pub fn before<'a>(bytes: &'a [u8], rest: &[u8]) -> &'a [u8]
    ensures { result.now ≡ front_of bytes.now rest.now }
{
    bytes.split_at(bytes.len().saturating_sub(rest.len())).0
}

/// What is between this byte and `;`, where it is a name, and what stands after it.
#[tactic(auto, unfolding(crate::specs::ItemReading::named_at))]
pub fn after_named(byte: u8, bytes: &[u8]) -> Option<(&[u8], &[u8])>
    ensures { option_map (λ r. (r.0.now, r.1.now)) result ≡ named_at byte bytes.now }
{
    let start = after_bytes(&[byte], bytes)?;
    let (name, end) = name_at(start)?;
    let rest = after_bytes(b";", end)?;
    Some((name, rest))
}
