//! Worked rows of `check`, through the top call, and of the calls that find verdicts.

mod contents;
mod documents;
mod lists;
mod verdicts;
mod words;
