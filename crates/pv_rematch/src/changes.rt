//! Changes of a word.

ghost use Rattle.std.specs.Prelude.{◌+◌, ◌≤◌, length};

use pv_model::Token;

/// What a change made of a word: from a place on, tokens of it gave way to others, which stand
/// there now.
#[derive(Clone, Copy)]
pub struct WordChange<'a> {
    /// The word after the change.
    pub word: &'a [Token],

    /// The place from which on tokens gave way to others.
    pub from: usize,

    /// The tokens that gave way.
    pub gone: &'a [Token],

    /// How many came in their place.
    pub came: usize,

    pub ghost within: { from + came ≤ length word.now },
}

impl<'a> WordChange<'a> {
    ghost use Rattle.std.specs.Prelude.{◌≡◌, ◌+◌};
    ghost use Rattle.std.specs.List.{between};

    /// The tokens that came.
    pub fn what_came(&self) -> &'a [Token]
        ensures { result.now ≡
            between self.now.from (self.now.from + self.now.came) self.now.word.now }
    {
        &self.word[self.from..self.from + self.came]
    }
}
