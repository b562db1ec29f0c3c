//! The verdicts of lists, each found where its element ends.

ghost use Rattle.std.specs.Prelude.{◌≡◌, ◌<◌, true, false, IfOk, List, OnOk};
ghost use Rattle.pv_productive.specs.PlainForms.{dtd_of};
ghost use Rattle.pv_tree.specs.Plain.{Tree};
ghost use Rattle.pv_tree.specs.declared.nodes.Mark.{Mark};
ghost use Rattle.pv_lists.specs.Judgements.{FindsEnded, IsEnded, MAX_KIDS, path_in};
ghost use Rattle.pv_check.specs.Findings.{verdicts_by};
ghost use Rattle.pv_check.specs.KnownVerdicts.{IsRightlyKept};
ghost use Rattle.pv_check.specs.ListJudgements.{IsPlaced, JudgesOwn};

use crate::errors::ListError;
use crate::findings::{Findings, Noted};
use crate::kept::Kept;
use crate::planning::Planning;
use crate::widths::Widths;
use crate::words::{is_narrow, owner_of};
use pv_chars::NoMemory;
use pv_dtd::Dtd;
use pv_lists::{ListJudge, OpenList, places_in};
use pv_model::Token;
use pv_reach::Judge;
use pv_tree::{Path, Verdict};

/// Finds which lists are too wide, and the verdicts of the others, up to the first that is too wide
/// or Impossible. The plan that is laid out at need stands with what was found.
#[derive(Drop)]
pub struct Verdicts<'l, 'a> {
    pub judge: &'l Judge<'a>,
    pub planning: Planning,
    pub widths: Widths,
}

impl<'l, 'a> Verdicts<'l, 'a> {
    // The verdict of the list of this element, which ends with this word; none where it is too
    // wide.
    fn verdict(
        &self,
        list: &OpenList<'_, Noted>,
        word: &[Token],
        kept: &mut Kept,
    ) -> Result<Option<Verdict>, NoMemory>
        requires { IsRightlyKept self.now.widths (dtd_of self.now.judge.now) kept.old }
        ensures judges { (kids : List (Tree Mark)) →
            IsEnded (dtd_of self.now.judge.now) list.now word.now kids →
            IfOk result (JudgesOwn self.now.widths (dtd_of self.now.judge.now) list.now.name.now
            kids) }
        ensures kept { IsRightlyKept self.now.widths (dtd_of self.now.judge.now) kept.new }
    {
        let owner = owner_of(list.token);
        let has_kids = list.kids > 0;
        kept.judge_word(
            self.widths,
            self.planning,
            self.judge,
            owner,
            word,
            !has_kids,
        )
    }

    // The places of a list in these elements, where it is, judged so, too wide or Impossible.
    fn places(
        &self,
        outer: &[OpenList<'_, Noted>],
        judged: Option<Verdict>,
    ) -> Result<Vec<u32>, NoMemory>
        ensures { IfOk result (λ places. IsPlaced judged (path_in outer.now) places.items) }
    {
        match judged {
            Some(Verdict::Valid) | Some(Verdict::Possible) => Ok(Vec::new(self.judge.alloc())),
            Some(Verdict::Impossible) | None => places_in(self.judge.alloc(), outer),
        }
    }

    // Tests the width alone of a list, which isn't judged.
    fn test_width(
        &self,
        list: &OpenList<'_, Noted>,
        word: &[Token],
        outer: &[OpenList<'_, Noted>],
        found: &mut Findings,
    ) -> Result<(), NoMemory>
        requires few { found.old.lists < MAX_KIDS }
        requires behind { list.now.before.any ≡ true }
        ensures { OnOk result (FindsEnded
            (verdicts_by self.now.widths (dtd_of self.now.judge.now)) list.now word.now outer.now
            found.old found.new) }
    {
        if list.before.wide {
            found.lists += 1;
            return Ok(());
        }
        if is_narrow(self.widths, self.judge, word) {
            found.lists += 1;
            return Ok(());
        }
        let places = places_in(self.judge.alloc(), outer)?;
        found.wide = Some(Path::new(self.judge.alloc(), &places)?);
        found.lists += 1;
        Ok(())
    }

    // Finds the verdict of a list, which stands before all lists that were found to be too wide or
    // Impossible.
    fn find_verdict(
        &self,
        list: &OpenList<'_, Noted>,
        word: &[Token],
        outer: &[OpenList<'_, Noted>],
        found: &mut Findings,
    ) -> Result<(), ListError>
        requires few_lists { found.old.lists < MAX_KIDS }
        requires few_possible { found.old.possible < MAX_KIDS }
        requires first { list.now.before.any ≡ false }
        requires kept { IsRightlyKept self.now.widths (dtd_of self.now.judge.now) found.old.kept }
        ensures { OnOk result (FindsEnded
            (verdicts_by self.now.widths (dtd_of self.now.judge.now)) list.now word.now outer.now
            found.old found.new) }
    {
        let judged = self.verdict(list, word, &mut found.kept)?;
        let places = self.places(outer, judged)?;
        found.add(self.judge.alloc(), judged, &places)?;
        found.spend(word.len(), judged)
    }
}

impl<'l, 'a> ListJudge for Verdicts<'l, 'a> {
    ghost use Rattle.pv_productive.specs.PlainForms.{dtd_of};
    ghost use Rattle.pv_check.specs.Findings.{verdicts_by};

    type Found = Findings;

    type Before = Noted;

    type Error = ListError;

    ghost judgement = { λ s. verdicts_by s.widths (dtd_of s.judge.now) };

    fn dtd(&self) -> &Dtd {
        self.judge.grammar().dtd()
    }

    fn none(&self) -> Findings {
        Findings::none(self.judge.alloc(), self.widths)
    }

    fn before(&self, found: &Findings) -> Noted {
        found.noted()
    }

    fn judge(
        &self,
        list: &OpenList<'_, Noted>,
        word: &[Token],
        outer: &[OpenList<'_, Noted>],
        found: &mut Findings,
    ) -> Result<(), ListError> {
        if list.before.any {
            self.test_width(list, word, outer, found)?;
            return Ok(());
        }
        self.find_verdict(list, word, outer, found)
    }
}
