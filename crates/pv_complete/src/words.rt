//! A least completion of a word, put together piece by piece.

pub mod completing;
pub mod contents;
pub mod cuts;
pub mod items;
pub mod members;
pub mod moves;
pub mod particles;
pub mod pieces;
pub mod spelling;
pub mod spot;
pub mod word_weights;
