//! Whether reaches cost no more than others.

ghost use Rattle.std.specs.Prelude.{◌≡◌, ◌≤◌, ◌<◌, ◌+◌, ℕ, IsTrue, drop, length, min};
ghost use Rattle.pv_rules.specs.Derivations.{heaviest};
ghost use Rattle.pv_bounds.specs.Fronts.{front_list, least_to};

use crate::front::Front;
use crate::fronts::Reach;
use pv_rules::HEAVIEST;

/// Whether one of the reaches ends at a place or after it, at no more than a cost and so much. Where
/// reaches don't end further than those before them, it may be missed.
pub fn is_within(ones: &Front<'_>, end: u32, extra: u32, cost: u32) -> bool
    ensures { IsTrue result → least_to end (front_list ones.now) ≤ extra + cost }
{
    let most = u64::from(extra) + u64::from(cost);
    if most >= u64::from(HEAVIEST) {
        return true;
    }
    let last = ones.last_by(most);
    if last >= ones.len() {
        return false;
    }
    let one = ones.get(last);
    if one.end < end || u64::from(one.cost) > most {
        return false;
    }
    true
}

// The number of an end that two fronts share, by which their last ones are told too; the ends that
// both have are the same from there on.
fn shared_from(ones: &Front<'_>, others: &Front<'_>) -> u32
    ensures ones { ones.now.from ≤ result }
    ensures others { others.now.from ≤ result }
{
    ones.from.max(others.from)
}

// How many of the others, the first ones, are to be looked at: the rest cost no less than the ones,
// but for so much, since these share their ends.
fn apart_from(ones: &Front<'_>, others: &Front<'_>, extra: u32) -> usize
    requires { ones.now.ends.now ≡ others.now.ends.now }
    ensures within { result ≤ length (front_list others.now) }
    ensures rest { (j : ℕ) → least_to j (front_list ones.now) ≤
        extra + least_to j (drop result (front_list others.now)) }
{
    let from = shared_from(ones, others);
    if ones.to != others.to || from >= others.to {
        return others.len();
    }
    let one = u64::from(ones.cost) + u64::from(from - ones.from);
    let other = u64::from(others.cost) + u64::from(from - others.from);
    if one > u64::from(extra) + other {
        return others.len();
    }
    others.near.len() + (from - others.from) as usize
}

// How many of the others, the first ones, are to be looked at, where the rest are to cost as much
// more at least than the ones.
fn apart_after(ones: &Front<'_>, others: &Front<'_>, extra: u32) -> usize
    requires { ones.now.ends.now ≡ others.now.ends.now }
    ensures within { result ≤ length (front_list others.now) }
    ensures rest { (k : ℕ) → min heaviest (extra + least_to k (front_list ones.now)) ≤
        least_to k (drop result (front_list others.now)) }
{
    let from = shared_from(ones, others);
    if ones.to != others.to || from >= others.to {
        return others.len();
    }
    let one = u64::from(ones.cost) + u64::from(from - ones.from);
    let other = u64::from(others.cost) + u64::from(from - others.from);
    if u64::from(extra) + one > other {
        return others.len();
    }
    others.near.len() + (from - others.from) as usize
}

/// Whether the ones cost no more than the others, and so much, up to each place.
pub fn covers(ones: &Front<'_>, others: &Front<'_>, extra: u32) -> bool
    requires { ones.now.ends.now ≡ others.now.ends.now }
    ensures { IsTrue result → (j : ℕ) → least_to j (front_list ones.now) ≤
        extra + least_to j (front_list others.now) }
{
    let apart = apart_from(ones, others, extra);
    for index in 0..apart {
        let other = others.get(index);
        if !is_within(ones, other.end, extra, other.cost) {
            return false;
        }
    }
    true
}

// Whether a reach costs no less than the ones and so much, as far as it goes.
fn costs_less(ones: &Front<'_>, other: Reach, extra: u32) -> bool
    ensures { IsTrue result →
        min heaviest (extra + least_to other.end (front_list ones.now)) ≤ other.cost }
{
    if other.cost >= HEAVIEST {
        return true;
    }
    other.cost >= extra && is_within(ones, other.end, 0, other.cost - extra)
}

/// Whether the others cost no less than the ones and so much, up to each place after one.
pub fn covers_after(ones: &Front<'_>, others: &Front<'_>, extra: u32, place: u32) -> bool
    requires { ones.now.ends.now ≡ others.now.ends.now }
    ensures { IsTrue result → (k : ℕ) → place < k →
        min heaviest (extra + least_to k (front_list ones.now)) ≤
        least_to k (front_list others.now) }
{
    let apart = apart_after(ones, others, extra);
    for index in 0..apart {
        let other = others.get(index);
        if other.end > place && !costs_less(ones, other, extra) {
            return false;
        }
    }
    true
}
