//! Matches of words: what is kept of a word under a content model, so that after a change of the
//! word it is found in steps of the change whether the model allows it.
//!
//! EMPTY, ANY and mixed content allow a word exactly if they allow each of its tokens alone, so the
//! number of those that they don't is kept (`specs/Counts.antt`). Of a word under a content
//! particle, points are kept: at a place of the word, what the tokens before it have reached, so
//! that it is known of each continuation whether it makes a word of the particle
//! (`specs/Points.antt`). A changed word is walked from the last point before the change to the
//! first point after it where the same is reached as before; what stands after that one is kept,
//! and so is the answer. `WordMatch::turn` finds this of a `WordChange` (`specs/Changes.antt`) and
//! changes nothing, and `WordMatch::make` makes it (`specs/WordMatches.antt`).
#![tactic(auto)]

mod changes;
mod counts;
mod points;
mod states;
mod stretches;
mod turns;
mod walkers;
mod word_matches;

pub use changes::WordChange;
pub use word_matches::{Turn, WordMatch};
