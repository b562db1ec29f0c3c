//! Matches of words, and their turns.

ghost use Rattle.std.specs.Prelude.{◌≡◌, ◌↔◌, ℕ, List, IsTrue, IfOk, map};
ghost use Rattle.pv_model.specs.Models.{Allows};
ghost use Rattle.pv_model.specs.Plain.{PlainModel, PlainToken};
ghost use Rattle.pv_model.specs.PlainForms.{plain_model, plain_token};
ghost use Rattle.pv_rematch.specs.Changes.{word_before};
ghost use Rattle.pv_rematch.specs.WordMatches.{IsWordMatch, IsTurn, KeepsWord, MakesWord};
ghost use Rattle.pv_rematch.specs.declared.word_matches.WordMatch.{WordMatch};

use crate::changes::WordChange;
use crate::counts::{count_after, refused_count};
use crate::stretches::{Points, Stretch};
use pv_model::{ContentModel, LaidModel, NoMemory, Token};
use std::alloc::Global;

/// What is kept of a word under a content model.
#[derive(Debug, Drop)]
pub enum Kept {
    /// Under EMPTY, ANY or mixed content: how many tokens the model doesn't allow alone.
    Count(usize),
    /// Under a content particle: points, and whether the word is one of it.
    Points(Points),
}

/// A word of a list under the content model of its owner, matched and kept.
#[derive(Debug, Drop)]
pub struct WordMatch {
    kept: Kept,
}

/// What comes of what is kept.
#[derive(Debug, Drop)]
pub enum Made {
    /// This in its place.
    Whole(Kept),
    /// New points in place of some.
    Part(Stretch),
}

/// What a change of the word makes of its match.
#[derive(Debug, Drop)]
pub struct Turn {
    made: Made,
}

impl WordMatch {
    /// The match of a word under a model, where the names below `declared` are declared. Each
    /// token is matched once. It takes memory for a point at each sixteenth to sixty-fourth token,
    /// with a byte for each name and each repetition of the particle.
    pub fn of(
        alloc: Global,
        model: &LaidModel,
        declared: u32,
        word: &[Token],
    ) -> Result<WordMatch, NoMemory>
        ensures { IfOk result
            (IsWordMatch declared (plain_model model.now) (map plain_token word.now)) }
    {
        let kept = kept_of(alloc, model, declared, word)?;
        Ok(WordMatch { kept })
    }

    /// Whether the model allows the word.
    pub fn is_allowed(&self) -> bool
        ensures { (declared : ℕ) (m : PlainModel) (w : List PlainToken) →
            IsWordMatch declared m w self.now → (IsTrue result ↔ Allows declared m w) }
    {
        self.kept.is_allowed()
    }

    /// What becomes of the match where the word changes. The match stays as it is.
    ///
    /// Under a content particle the word is matched from the last point before the change up to the
    /// first one after it where the same is reached as before; if there is none, or if no allowed
    /// word begins so, up to where that is known.
    pub fn turn(
        &self,
        alloc: Global,
        model: &LaidModel,
        declared: u32,
        change: &WordChange<'_>,
    ) -> Result<Turn, NoMemory>
        ensures { IfOk result (λ turn.
            IsWordMatch declared (plain_model model.now)
            (map plain_token (word_before change.now)) self.now →
            IsTurn declared (plain_model model.now)
            (map plain_token change.now.word.now) self.now turn) }
    {
        match (&self.kept, model.model()) {
            (Kept::Count(count), _) => {
                let count = count_after(alloc, model, declared, *count, change)?;
                Ok(Turn {
                    made: Made::Whole(Kept::Count(count)),
                })
            }
            (Kept::Points(points), ContentModel::Children(part)) => {
                let stretch = points.turn(alloc, part, change)?;
                Ok(Turn {
                    made: Made::Part(stretch),
                })
            }
            (Kept::Points(_), _) => {
                let kept = kept_of(alloc, model, declared, change.word)?;
                Ok(Turn {
                    made: Made::Whole(kept),
                })
            }
        }
    }

    /// Makes a turn that `turn` found for this match. Where there is no memory for new points it
    /// keeps those before the change alone, and later turns take longer.
    pub fn make(&mut self, turn: Turn)
        ensures { (declared : ℕ) (m : PlainModel) (w : List PlainToken) →
            IsTurn declared m w self.old turn → IsWordMatch declared m w self.new }
    {
        match turn.made {
            Made::Whole(kept) => self.kept = kept,
            Made::Part(stretch) => match &mut self.kept {
                Kept::Points(points) => points.put(stretch),
                Kept::Count(_) => {}
            },
        }
    }
}

impl Turn {
    /// Whether the model allows the word after the change.
    pub fn is_allowed(&self) -> bool
        ensures { (declared : ℕ) (m : PlainModel) (w : List PlainToken) (word_match : WordMatch) →
            IsTurn declared m w word_match self.now → (IsTrue result ↔ Allows declared m w) }
    {
        match &self.made {
            Made::Whole(kept) => kept.is_allowed(),
            Made::Part(stretch) => stretch.is_allowed,
        }
    }
}

impl Kept {
    // Whether the model allows the word.
    fn is_allowed(&self) -> bool
        ensures { (declared : ℕ) (m : PlainModel) (w : List PlainToken) →
            KeepsWord declared m w self.now → (IsTrue result ↔ Allows declared m w) }
    {
        match self {
            Kept::Count(count) => *count == 0,
            Kept::Points(points) => points.is_allowed,
        }
    }
}

// What is kept of a word.
fn kept_of(
    alloc: Global,
    model: &LaidModel,
    declared: u32,
    word: &[Token],
) -> Result<Kept, NoMemory>
    ensures { IfOk result (KeepsWord declared (plain_model model.now) (map plain_token word.now)) }
{
    match model.model() {
        ContentModel::Children(part) => Ok(Kept::Points(Points::of(alloc, part, word)?)),
        ContentModel::Empty | ContentModel::Any | ContentModel::Mixed(_) => {
            Ok(Kept::Count(refused_count(alloc, model, declared, word)?))
        }
    }
}
