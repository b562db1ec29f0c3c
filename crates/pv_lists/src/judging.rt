//! The judgement of a list where it ends.

ghost use Rattle.std.specs.Prelude.{◌≡◌, [], ℕ, List, OnOk};
ghost use Rattle.pv_dtd.specs.PlainForms.{plain_dtd};
ghost use Rattle.pv_tree.specs.Lists.{Listed};
ghost use Rattle.pv_tree.specs.declared.nodes.Mark.{Mark};
ghost use Rattle.pv_lists.specs.Judgements.{FindsEnded, Judgement, MayBeJudged};

use crate::open::OpenList;
use pv_chars::NoMemory;
use pv_dtd::Dtd;
use pv_model::Token;

/// Judges the lists of elements, each where it ends. An element ends after those in it, and its
/// list stands before theirs, so what was found is said of lists in document order, and a list that
/// ends is put among them. `judgement` is what the judge says: by which DTD, what its findings say
/// of lists, and what its notes say.
pub trait ListJudge {
    /// What was found of the lists that are whole.
    type Found: Drop;

    /// What is noted of it where an element begins.
    type Before: Copy;

    /// Why a list isn't judged.
    type Error: From<NoMemory> + Drop;

    ghost judgement: { Self → Judgement Self.Before Self.Found };

    /// The DTD by which lists are judged.
    fn dtd(&self) -> &Dtd
        ensures { plain_dtd result.now ≡ (judgement self.now).dtd };

    /// What is found of no lists.
    fn none(&self) -> Self::Found
        ensures { (root : List ℕ) → (judgement self.now).finds root [] result };

    /// What is noted where an element begins.
    fn before(&self, found: &Self::Found) -> Self::Before
        ensures { (root : List ℕ) (lists : List (Listed Mark)) →
            (judgement self.now).finds root lists found.now →
            (judgement self.now).notes root lists result };

    /// Judges the list of this element, which ends: its word is this one, and the elements around
    /// it are these, outermost first.
    fn judge(
        &self,
        list: &OpenList<'_, Self::Before>,
        word: &[Token],
        outer: &[OpenList<'_, Self::Before>],
        found: &mut Self::Found,
    ) -> Result<(), Self::Error>
        requires { MayBeJudged (judgement self.now) list.now word.now found.old }
        ensures { OnOk result (FindsEnded (judgement self.now) list.now word.now outer.now
            found.old found.new) };
}
