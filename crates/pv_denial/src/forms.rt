//! Whether rows hold under the rules of one form.

ghost use Rattle.std.specs.Prelude.{◌≡◌, ◌≤◌, ◌<◌, ◌^◌, ◌↔◌, IsTrue, length, map, suc};
ghost use Rattle.pv_model.specs.Plain.{named, text};
ghost use Rattle.pv_model.specs.PlainForms.{plain_token};
ghost use Rattle.pv_rules.specs.PlainForms.{plain_site};
ghost use Rattle.pv_rules.specs.Sites.{name_site};
ghost use Rattle.pv_denial.specs.RowForms.{HoldsKept, HoldsNoSide, HoldsOneSide, HoldsOverTexts};
ghost use Rattle.pv_denial.specs.RowForms.{HoldsTwoSides};
ghost use Rattle.pv_denial.specs.RowForms.{value_then, past_at};

use crate::barrier::Barrier;
use pv_model::{NameId, Token};
use pv_rules::Site;

/// Whether a site has a value at each place.
pub fn none_holds(barrier: &Barrier<'_>, left: Site, tokens: usize) -> bool
    requires { tokens < 2 ^ 62 }
    ensures { IsTrue result ↔ HoldsNoSide barrier.now (plain_site left) tokens }
{
    for place in 0..tokens + 1 {
        if barrier.past_at(left, place) <= place as u64 {
            return false;
        }
    }
    true
}

/// Whether a site is at least another.
pub fn one_holds(barrier: &Barrier<'_>, left: Site, right: Site, tokens: usize) -> bool
    requires { tokens < 2 ^ 62 }
    ensures { IsTrue result ↔
        HoldsOneSide barrier.now (plain_site left) (plain_site right) tokens }
{
    for place in 0..tokens + 1 {
        if barrier.past_at(left, place) < barrier.past_at(right, place) {
            return false;
        }
    }
    true
}

/// One past the value of a site at the place that is told by one more than it, or 0.
pub fn past_from(barrier: &Barrier<'_>, site: Site, past: u64) -> u64
    ensures { result ≡ value_then past (past_at barrier.now (plain_site site)) }
{
    match past {
        0 => 0,
        past => barrier.past_at(site, (past - 1) as usize),
    }
}

/// Whether a site is at least a second one at the values of a first.
pub fn two_holds(
    barrier: &Barrier<'_>,
    left: Site,
    first: Site,
    second: Site,
    tokens: usize,
) -> bool
    requires { tokens < 2 ^ 62 }
    ensures { IsTrue result ↔
        HoldsTwoSides barrier.now (plain_site left) (plain_site first) (plain_site second) tokens }
{
    for place in 0..tokens + 1 {
        let past = barrier.past_at(first, place);
        if barrier.past_at(left, place) < past_from(barrier, second, past) {
            return false;
        }
    }
    true
}

/// Whether a site is at least itself after this token, where the token is a text.
fn text_here_holds(barrier: &Barrier<'_>, left: Site, token: Token, place: usize) -> bool
    requires { place < 2 ^ 62 }
    ensures { IsTrue result ↔ (plain_token token ≡ text →
        past_at barrier.now (plain_site left) (suc place) ≤
        past_at barrier.now (plain_site left) place) }
{
    match token {
        Token::Text => barrier.past_at(left, place + 1) <= barrier.past_at(left, place),
        Token::Name(_) => true,
        Token::Other => true,
    }
}

/// Whether a site is before each text at least itself after the text.
pub fn text_holds(barrier: &Barrier<'_>, left: Site, word: &[Token]) -> bool
    requires { length word.now < 2 ^ 62 }
    ensures { IsTrue result ↔
        HoldsOverTexts barrier.now (plain_site left) (map plain_token word.now) }
{
    for place in 0..word.len() {
        if !text_here_holds(barrier, left, word[place], place) {
            return false;
        }
    }
    true
}

/// Whether an element of a name leads beyond this token, where the token is of that name.
fn kept_here_holds(barrier: &Barrier<'_>, id: NameId, token: Token, place: usize) -> bool
    requires { place < 2 ^ 62 }
    ensures { IsTrue result ↔ (plain_token token ≡ named id.0 →
        suc (suc place) ≤ past_at barrier.now (name_site id.0) place) }
{
    match token {
        Token::Name(other) => {
            if other.0 == id.0 {
                place as u64 + 2 <= barrier.past_at(Site::Name(id), place)
            } else {
                true
            }
        }
        Token::Text => true,
        Token::Other => true,
    }
}

/// Whether an element of a name leads beyond each token of that name.
pub fn kept_holds(barrier: &Barrier<'_>, id: NameId, word: &[Token]) -> bool
    requires { length word.now < 2 ^ 62 }
    ensures { IsTrue result ↔ HoldsKept barrier.now id.0 (map plain_token word.now) }
{
    for place in 0..word.len() {
        if !kept_here_holds(barrier, id, word[place], place) {
            return false;
        }
    }
    true
}
