//! Tests of matches that are kept: words at random that change at random, each against the match of
//! the whole word, and the walk over a particle's positions that they stand on.

mod changes;
mod models;
mod positions;
mod random;
mod walks;
