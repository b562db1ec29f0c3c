//! What was found of lists that are whole.

ghost use Rattle.std.specs.Prelude.{◌≡◌, ◌<◌, ◌++◌, ◌∷◌, [], ℕ, List, Some, OnOk};
ghost use Rattle.std.specs.List.{AllByRecursion};
ghost use Rattle.pv_dtd.specs.Plain.{PlainDtd};
ghost use Rattle.pv_tree.specs.Lists.{Listed};
ghost use Rattle.pv_tree.specs.declared.nodes.Mark.{Mark};
ghost use Rattle.pv_lists.specs.Judgements.{MAX_KIDS};
ghost use Rattle.pv_check.specs.Findings.{HasFound, HasNoted};
ghost use Rattle.pv_check.specs.ListJudgements.{IsNarrowAndLive, IsPlaced, JudgesList};
ghost use Rattle.pv_check.specs.declared.widths.Widths.{Widths as HowWide};

use crate::errors::ListError;
use crate::kept::Kept;
use crate::widths::Widths;
use pv_chars::NoMemory;
use pv_tree::{Path, Verdict};
use std::alloc::Global;

// The fewest tokens of a list that counts for threads.
const COUNTED_TOKENS: usize = 64;

// The most tokens of such lists, where they aren't valid, that one thread judges.
const TOKENS_BY_ONE_THREAD: usize = 65_536;

/// What is noted of lists where an element begins after them.
#[derive(Clone, Copy)]
pub struct Noted {
    /// Whether one is too wide.
    pub wide: bool,
    /// Whether one is too wide or Impossible.
    pub any: bool,
}

/// What was found of some lists.
#[derive(Drop)]
pub struct Findings {
    /// The path of the first that is too wide.
    pub wide: Option<Path>,
    /// The path of the first that is too wide or Impossible.
    pub first: Option<Path>,
    /// How many are Possible.
    pub possible: u64,
    /// How many lists they are.
    pub lists: u64,
    /// How many tokens of long lists that aren't valid may still be judged.
    pub left: usize,
    /// What is kept for the lists that end after these.
    pub kept: Kept,
}

impl Findings {
    /// Those of no lists, which may be so wide.
    pub fn none(alloc: Global, widths: Widths) -> Findings
        ensures { (s : HowWide) (g : PlainDtd) (root : List ℕ) → HasFound s g root [] result }
    {
        Findings {
            wide: None,
            first: None,
            possible: 0,
            lists: 0,
            left: match widths {
                Widths::Limited => TOKENS_BY_ONE_THREAD,
                Widths::Any => usize::MAX,
            },
            kept: Kept::nothing(alloc),
        }
    }

    /// What is noted of these lists.
    pub fn noted(&self) -> Noted
        ensures { (s : HowWide) (g : PlainDtd) (root : List ℕ) (lists : List (Listed Mark)) →
            HasFound s g root lists self.now → HasNoted s g root lists result }
    {
        Noted {
            wide: self.wide.is_some(),
            any: self.first.is_some(),
        }
    }

    /// Takes so many tokens of a list, where it is long and isn't valid, as it was judged, from
    /// those that may still be judged.
    pub fn spend(&mut self, tokens: usize, judged: Option<Verdict>) -> Result<(), ListError>
        ensures { (s : HowWide) (g : PlainDtd) (root : List ℕ) (lists : List (Listed Mark)) →
            HasFound s g root lists self.old → HasFound s g root lists self.new }
    {
        if tokens < COUNTED_TOKENS || matches!(judged, Some(Verdict::Valid)) {
            return Ok(());
        }
        self.left = self.left.checked_sub(tokens).ok_or(ListError::LongLists)?;
        Ok(())
    }

    /// One more list, which stands among these, before none of them that is too wide or Impossible:
    /// it is too wide, or has this verdict. The places are those of one that is too wide or
    /// Impossible.
    pub fn add(
        &mut self,
        alloc: Global,
        judged: Option<Verdict>,
        places: &[u32],
    ) -> Result<(), NoMemory>
        requires few_lists { self.old.lists < MAX_KIDS }
        requires few_possible { self.old.possible < MAX_KIDS }
        ensures { (s : HowWide) (g : PlainDtd) (root : List ℕ) (before after : List (Listed Mark))
            (list : Listed Mark) → HasFound s g root (before ++ after) self.old →
            AllByRecursion (IsNarrowAndLive s g root) before → JudgesList s g root list judged →
            IsPlaced judged list.path places.now →
            OnOk result (HasFound s g root (before ++ list ∷ after) self.new) }
    {
        match judged {
            None => {
                self.wide = Some(Path::new(alloc, places)?);
                self.first = Some(Path::new(alloc, places)?);
                self.lists += 1;
                Ok(())
            }
            Some(verdict) => self.add_judged(alloc, verdict, places),
        }
    }

    // One more list, which isn't too wide and has this verdict.
    fn add_judged(
        &mut self,
        alloc: Global,
        verdict: Verdict,
        places: &[u32],
    ) -> Result<(), NoMemory>
        requires few_lists { self.old.lists < MAX_KIDS }
        requires few_possible { self.old.possible < MAX_KIDS }
        ensures { (s : HowWide) (g : PlainDtd) (root : List ℕ) (before after : List (Listed Mark))
            (list : Listed Mark) → HasFound s g root (before ++ after) self.old →
            AllByRecursion (IsNarrowAndLive s g root) before →
            JudgesList s g root list (Some verdict) →
            IsPlaced (Some verdict) list.path places.now →
            OnOk result (HasFound s g root (before ++ list ∷ after) self.new) }
    {
        match verdict {
            Verdict::Impossible => {
                self.first = Some(Path::new(alloc, places)?);
                self.lists += 1;
                Ok(())
            }
            Verdict::Possible => {
                self.possible += 1;
                self.lists += 1;
                Ok(())
            }
            Verdict::Valid => {
                self.lists += 1;
                Ok(())
            }
        }
    }
}
