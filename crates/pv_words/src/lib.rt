//! Words of a line: numbers, paths, and the lines that they stand in.
//!
//! A number is its decimal digits (`specs/Numbers.antt`), a path its places with dots between
//! (`specs/Paths.antt`), and a line words with blanks between (`specs/Words.antt`). Each is written
//! at the end of a text, and read from the front of some bytes (`specs/Fronts.antt`). What the
//! lines of some bytes are is `specs/Lines.antt`. Scripts, packs, denials, ranges and what a
//! program prints are written with these. A call that appends fails for want of memory alone, and
//! may have appended a part of what it was to.
#![tactic(auto)]

pub mod laws;
mod lines;
mod numbers;
mod paths;
mod words;

pub use lines::{line_of, number_line_at, push_counted, push_number_line, without_returns};
pub use numbers::{
    last_number, next_number, push_next_number, push_number, push_numbers, written_number,
};
pub use paths::{push_path, written_path};
pub use words::{first_word, push_next_word};
