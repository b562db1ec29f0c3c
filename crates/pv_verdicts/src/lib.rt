//! The verdict of a list's word after a change, by what was kept of the word before, in steps of
//! the change.
//!
//! Of the word of an element's list, three things tell its verdict (`specs/Judged.antt`): how many
//! of its tokens aren't productive, without which it is Impossible; whether the content model
//! allows it, for which its match is kept; and, where the content is free, how many of its tokens
//! that doesn't take (`specs/TokenCounts.antt`). All of them are told by difference of the tokens
//! that are gone and of those that came. Only where the content isn't free and the model doesn't
//! allow the word, a table is filled. `Judged::verdict_after` finds a verdict, as `word_verdict` of
//! pv_reach does, and changes nothing; `Judged::make` makes what it found of what is kept.
//! `LastWord` holds a word with what is kept of it, and judges another by where the two differ,
//! which it finds itself, or follows a change that it is told.
#![tactic(auto)]

mod counts;
mod deciding;
mod differences;
mod judged;
mod last;

pub use judged::{Judged, Turned};
pub use last::LastWord;
