//! Worked rows of DTDs, of documents and of `valid`, and of words and faults of the outside,
//! through the top call; and of documents through the calls that read, write and go over them.

mod documents;
mod items;
mod listing;
mod one_pass;
mod outside;
mod params;
mod reading;
mod trees;
mod valid;
mod words;
mod writing;
