//! Content models, and the words that they allow (XML 1.0, section 3.2).
//!
//! A model is EMPTY, ANY, mixed content or a content particle over names by their numbers
//! (`ContentModel`), and a word is the list of an element's child elements and data (`Token`).
//! `matches` says whether a model allows a word, by `Allows` of specs/Models.antt, for every
//! model, deterministic or not, and `LaidModel` says the same by a model that is laid out once for
//! many words (specs/Forms.antt). specs/Plain.antt has models and words as plain data, and
//! specs/PlainForms.antt reads them off the program's values. A short word is walked through the
//! particle by its positions (specs/Positions.antt); for a long one, and in a `LaidModel`, a large
//! particle is laid out in pairs (specs/Layouts.antt), so that a name costs the steps to its
//! places alone.
//! `is_text_at` and `is_element_over` tell what stands in a word.
#![tactic(auto)]

mod children;
mod laid;
mod layout;
mod long_words;
mod matching;
mod mixed;
mod models;
mod places;
mod positions;
mod reach;
mod spans;

pub use laid::LaidModel;
pub use matching::matches;
pub use models::{ContentModel, NameId, Names, NoMemory, Part, Parts, Token};
pub use positions::{Moved, advance, may_be_empty, push_positions};
pub use spans::{is_element_over, is_text_at};
