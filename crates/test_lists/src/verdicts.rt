//! Words that are changed, by what is kept of the word before: rows of verdicts, and words that
//! change at random, whose verdicts are those that are found anew.

mod changing;
mod games;
mod last;
mod random;
mod rows;
