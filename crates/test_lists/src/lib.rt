//! Verdicts, weights, packs and denials of lists, by calls and by rows; and random games: after each
//! move, what a session says of its lists is compared with a fresh check.
#![tactic(auto)]

#[cfg(test)]
mod calls;
#[cfg(test)]
mod denials;
#[cfg(test)]
mod games;
#[cfg(test)]
mod need;
#[cfg(test)]
mod packs;
#[cfg(test)]
mod threads;
#[cfg(test)]
mod verdicts;
