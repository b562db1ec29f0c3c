//! The furthest places over a word, as a table of columns tells them.

ghost use Rattle.std.specs.Prelude.{◌≡◌, ◌<◌, ◌^◌, ℕ, length};
ghost use Rattle.pv_reach.specs.Merging.{column_head};

use crate::columns::merging::column_head;
use pv_model::{NameId, Token};

/// A word, and for each column and place of it one past the furthest place that the column reaches
/// from there, or 0.
#[derive(Debug, Drop)]
pub struct Ends {
    pub word: Vec<Token>,
    /// For each column of the DTD the one that stands for it in the table.
    pub heads: Vec<usize>,
    pub table: Vec<u32>,
    pub width: usize,
    /// The number of names, which is the column of the first part.
    pub names: u32,
    pub ghost short: { length word.items < 2 ^ 26 },
    pub ghost narrow: { width < 2 ^ 26 },
    pub ghost headed: { (c : ℕ) → column_head heads.items c < width },
}

impl Ends {
    ghost use Rattle.std.specs.Prelude.{◌≡◌, ◌+◌, slice_get};
    ghost use Rattle.pv_reach.specs.ReachedPlaces.{kept_past, past_column};

    /// One past the furthest place of a column, or 0.
    fn column_past(&self, column: usize, from: u32) -> u32
        ensures { result ≡ past_column self.now column from }
    {
        let at = from as usize * self.width + column_head(&self.heads, column);
        self.table.get(at).copied().unwrap_or(0)
    }

    /// One past the furthest place of the content of a name, or 0.
    pub fn content_past(&self, id: NameId, from: u32) -> u32
        ensures { result ≡ past_column self.now id.0 from }
    {
        self.column_past(id.0 as usize, from)
    }

    /// One past the furthest place of a part, or 0.
    pub fn part_past(&self, number: u32, from: u32) -> u32
        ensures { result ≡ past_column self.now (self.now.names + number) from }
    {
        self.column_past(self.names as usize + number as usize, from)
    }

    /// One past the place after a token of this name, where the word has that here, or 0.
    pub fn kept_past(&self, id: NameId, from: u32) -> u32
        ensures { result ≡ kept_past (slice_get self.now.word.items from) id.0 from }
    {
        match self.word.get(from as usize) {
            Some(Token::Name(other)) if other.0 == id.0 => from + 2,
            _ => 0,
        }
    }
}
