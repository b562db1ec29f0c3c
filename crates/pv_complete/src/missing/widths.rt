//! The first Possible list that is too wide for weights.

ghost use Rattle.std.specs.Prelude.{◌↔◌, ◌≡◌, ◌∷◌, [], List, ℕ, IfOk, IsTrue, MatchOption};
ghost use Rattle.std.specs.Prelude.{drop, length};
ghost use Rattle.std.specs.List.{AllByRecursion};
ghost use Rattle.pv_dtd.specs.PlainForms.{plain_dtd};
ghost use Rattle.pv_tree.specs.Lists.{IsFirstNot, Listed, lists_of};
ghost use Rattle.pv_tree.specs.PlainDocs.{plain_doc};
ghost use Rattle.pv_tree.specs.PlainForms.{forest};
ghost use Rattle.pv_tree.specs.Search.{Tells};
ghost use Rattle.pv_tree.specs.Words.{word_of};
ghost use Rattle.pv_tree.specs.declared.nodes.Mark.{Mark};
ghost use Rattle.pv_missing.specs.Verdicts.{AreVerdicts};
ghost use Rattle.pv_missing.specs.Widths.{FitsWeights};
ghost use Rattle.pv_complete.specs.NeededElements.{CanWeigh};
ghost use Rattle.pv_complete.specs.WideLists.{HaveVerdictsFrom};

use crate::missing::load::next_is_possible;
use pv_chars::NoMemory;
use pv_dtd::Dtd;
use pv_missing::{Verdicts, is_narrow_for_weights};
use pv_tree::{Doc, DocList, ListTest, Node, Path, first_list, word};
use std::alloc::Global;

/// The path of the first Possible list of a document that is too wide for weights, by the verdicts
/// of its lists. No table is made.
pub fn first_wide_list(
    alloc: Global,
    dtd: &Dtd,
    doc: &Doc,
    verdicts: &Verdicts,
) -> Result<Option<Path>, NoMemory>
    ensures { IfOk result (λ found. (root : List ℕ) →
        AreVerdicts (plain_dtd dtd.now) root (lists_of (plain_doc doc.now)) verdicts.now.verdicts →
        MatchOption found
        (AllByRecursion (CanWeigh (plain_dtd dtd.now) root) (lists_of (plain_doc doc.now)))
        (IsFirstNot (CanWeigh (plain_dtd dtd.now) root) (lists_of (plain_doc doc.now)))) }
{
    let widths = Widths {
        alloc,
        dtd,
        verdicts,
    };
    first_list(alloc, &widths, doc, &mut 0)
}

/// Whether lists, where they are Possible, aren't too wide for weights, by their verdicts, of which
/// these many are used.
#[derive(Drop)]
struct Widths<'a> {
    alloc: Global,
    dtd: &'a Dtd,
    verdicts: &'a Verdicts,
}

impl ListTest for Widths<'_> {
    type State = u64;

    ghost passes = { λ test. CanWeigh (plain_dtd test.dtd.now) };

    ghost awaits = { λ test. HaveVerdictsFrom (plain_dtd test.dtd.now)
        test.verdicts.now.verdicts };

    fn passes_list(&self, list: &DocList<'_>, used: &mut u64) -> Result<bool, NoMemory> {
        self.can_weigh(list.kids, used)
    }
}

impl Widths<'_> {
    /// Uses the verdict of the list of these kids, and tells whether the list can be weighed.
    fn can_weigh(&self, kids: &[Node], used: &mut u64) -> Result<bool, NoMemory>
        ensures { IfOk result (λ can. (list : Listed Mark) → list.kids ≡ forest kids.now →
            Tells (CanWeigh (plain_dtd self.now.dtd.now))
            (HaveVerdictsFrom (plain_dtd self.now.dtd.now) self.now.verdicts.now.verdicts used.old)
            (HaveVerdictsFrom (plain_dtd self.now.dtd.now) self.now.verdicts.now.verdicts used.new)
            list can) }
    {
        if !next_is_possible(self.verdicts, used) {
            return Ok(true);
        }
        is_list_narrow(self.alloc, self.dtd, kids)
    }
}

/// Whether the list of these kids isn't too wide for weights. Its word is made only where there are
/// as many kids as are too many tokens.
fn is_list_narrow(alloc: Global, dtd: &Dtd, kids: &[Node]) -> Result<bool, NoMemory>
    ensures { IfOk result (λ narrow. IsTrue narrow ↔ FitsWeights (plain_dtd dtd.now)
        (length (word_of (plain_dtd dtd.now) (forest kids.now)))) }
{
    if is_narrow_for_weights(dtd, kids.len() as u64) {
        return Ok(true);
    }
    let tokens = word(alloc, dtd, kids)?;
    Ok(is_narrow_for_weights(dtd, tokens.as_slice().len() as u64))
}
