//! Numbers of spans.

ghost use Rattle.std.specs.Prelude.{◌≡◌, ◌≤◌, ◌<◌, ◌^◌};
ghost use Rattle.pv_span.specs.Charts.{span_number, spans_before};

/// How many spans there are from the last places.
#[inline(always)]
fn spans_before(places: u32) -> usize
    requires { places < 2 ^ 13 }
    ensures number { result ≡ spans_before places }
    ensures small { result < 2 ^ 26 }
{
    let places = places as usize;
    places * (places + 1) / 2
}

/// The number of a span.
#[inline(always)]
pub fn span_number(tokens: u32, from: u32, to: u32) -> usize
    requires short { tokens < 2 ^ 13 }
    requires span { (from ≤ to) × (to ≤ tokens) }
    ensures { result ≡ span_number tokens from to }
{
    spans_before(tokens - from) + (to - from) as usize
}
