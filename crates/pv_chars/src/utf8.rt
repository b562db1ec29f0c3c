//! Code points in UTF-8.

ghost use Rattle.std.specs.Prelude.{◌≡◌, ◌<◌, ◌≤◌, length, IfSome, MatchOption};
ghost use Rattle.std.specs.Option.{option_map};
ghost use Rattle.pv_chars.specs.Characters.{BeginsWith, BeginsWithNone};
ghost use Rattle.pv_chars.specs.Utf8.{char_at, continues, of_two, of_three, of_four, led_by};
ghost use Rattle.pv_chars.specs.Utf8.{led_by_three, led_by_four};

/// The first byte of a code point of two bytes, three bytes or four bytes.
const LEADS_TWO: u8 = 0xC0;

const LEADS_THREE: u8 = 0xE0;

const LEADS_FOUR: u8 = 0xF0;
/// What a byte that continues a code point has beside its six bits.
const CONTINUES: u8 = 0x80;

/// Whether it continues a code point.
pub(crate) fn continues(b: u8) -> bool
    ensures { result ≡ continues b }
{
    b >= CONTINUES && b < LEADS_TWO
}

fn of_two(a: u8, b: u8, rest: &[u8]) -> Option<(u32, &[u8])>
    requires { a < 0xE0 }
    ensures { option_map (λ r. (r.0, r.1.now)) result ≡ of_two a b rest.now }
{
    if a < 0xC2 || !continues(b) {
        return None;
    }
    Some(((a - LEADS_TWO) as u32 * 64 + (b - CONTINUES) as u32, rest))
}

fn of_three(a: u8, b: u8, c: u8, rest: &[u8]) -> Option<(u32, &[u8])>
    requires three { 0xE0 ≤ a }
    requires no_more { a < 0xF0 }
    ensures { option_map (λ r. (r.0, r.1.now)) result ≡ of_three a b c rest.now }
{
    if !continues(b) || !continues(c) {
        return None;
    }
    let code = (a - LEADS_THREE) as u32 * 4096
        + (b - CONTINUES) as u32 * 64
        + (c - CONTINUES) as u32;
    if code < 0x800 || (code >= 0xD800 && code < 0xE000) {
        return None;
    }
    Some((code, rest))
}

fn of_four(a: u8, b: u8, c: u8, d: u8, rest: &[u8]) -> Option<(u32, &[u8])>
    requires { 0xF0 ≤ a }
    ensures { option_map (λ r. (r.0, r.1.now)) result ≡ of_four a b c d rest.now }
{
    if !continues(b) || !continues(c) || !continues(d) {
        return None;
    }
    let high = (a - LEADS_FOUR) as u32 * 262144 + (b - CONTINUES) as u32 * 4096;
    let code = high + (c - CONTINUES) as u32 * 64 + (d - CONTINUES) as u32;
    if code < 0x10000 || code >= 0x110000 {
        return None;
    }
    Some((code, rest))
}

fn led_by_more(a: u8, b: u8, rest: &[u8]) -> Option<(u32, &[u8])>
    requires { 0xE0 ≤ a }
    ensures { option_map (λ r. (r.0, r.1.now)) result ≡ led_by_three a b rest.now }
{
    match rest {
        [c, rest @ ..] if a < LEADS_FOUR => of_three(a, b, *c, rest),
        [c, d, rest @ ..] => of_four(a, b, *c, *d, rest),
        _ => None,
    }
}

fn led_by(a: u8, rest: &[u8]) -> Option<(u32, &[u8])>
    ensures { option_map (λ r. (r.0, r.1.now)) result ≡ led_by a rest.now }
{
    match rest {
        [b, rest @ ..] if a < LEADS_THREE => of_two(a, *b, rest),
        [b, rest @ ..] => led_by_more(a, *b, rest),
        [] => None,
    }
}

#[tactic(auto, unfolding(crate::specs::Utf8::char_at))]
fn read_char(bytes: &[u8]) -> Option<(u32, &[u8])>
    ensures { option_map (λ r. (r.0, r.1.now)) result ≡ char_at bytes.now }
{
    match bytes {
        [a, rest @ ..] if *a < CONTINUES => Some((*a as u32, rest)),
        [a, rest @ ..] => led_by(*a, rest),
        [] => None,
    }
}

/// The code point at the front, in UTF-8's shortest form, and what stands after it.
///
/// ```rust
/// // test_layers: shortest_forms
/// assert!(rt; char_at(b"\xDF\xBFx") == Some((0x7FF, b"x".as_slice())));
/// assert!(rt; char_at(b"\xC0\x80").is_none());
/// ```
pub fn char_at(bytes: &[u8]) -> Option<(u32, &[u8])>
    ensures found { MatchOption result (BeginsWithNone bytes.now)
        (λ r. BeginsWith bytes.now r.0 r.1.now) }
    ensures shorter { IfSome result (λ r. length r.1.now < length bytes.now) }
{
    read_char(bytes)
}
