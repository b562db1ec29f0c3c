//! What is kept from list to list: the plan of the grammar, and verdicts.

use crate::known::{KnownVerdicts, is_worth};
use crate::planning::Planning;
use crate::widths::Widths;
use crate::words::plan_and_judge_word;
use pv_chars::NoMemory;
use pv_missing::Of;
use pv_model::Token;
use pv_reach::{Judge, Plan};
use pv_tree::Verdict;
use std::alloc::Global;

/// What is kept from list to list.
#[derive(Drop)]
pub struct Kept {
    /// The plan of the grammar, where its rules were laid out for these lists.
    pub plan: Option<Plan>,
    pub known: KnownVerdicts,
}

impl Kept {
    ghost use Rattle.std.specs.Prelude.{IfOk, Some, map};
    ghost use Rattle.std.specs.Option.{option_map};
    ghost use Rattle.pv_dtd.specs.Plain.{PlainDtd};
    ghost use Rattle.pv_model.specs.PlainForms.{plain_token};
    ghost use Rattle.pv_productive.specs.PlainForms.{dtd_of};
    ghost use Rattle.pv_missing.specs.PlainForms.{plain_of};
    ghost use Rattle.pv_check.specs.KnownVerdicts.{IsRightlyKept};
    ghost use Rattle.pv_check.specs.ListJudgements.{JudgesWord};
    ghost use Rattle.pv_check.specs.declared.widths.Widths.{Widths as HowWide};

    /// Nothing is kept.
    pub fn nothing(alloc: Global) -> Kept
        ensures { (s : HowWide) (g : PlainDtd) → IsRightlyKept s g result }
    {
        Kept {
            plan: None,
            known: KnownVerdicts::none(alloc),
        }
    }

    // What `plan_and_judge_word` answers of a word whose owner is known, which is remembered where
    // that is worth it.
    fn judge_and_keep(
        &mut self,
        widths: Widths,
        planning: Planning,
        judge: &Judge<'_>,
        of: Of,
        word: &[Token],
        is_bare: bool,
    ) -> Result<Option<Verdict>, NoMemory>
        requires { IsRightlyKept widths (dtd_of judge.now) self.old }
        ensures judges { IfOk result (JudgesWord widths (dtd_of judge.now) (Some (plain_of of))
            (map plain_token word.now) is_bare) }
        ensures kept { IsRightlyKept widths (dtd_of judge.now) self.new }
    {
        let plan = &mut self.plan;
        let judged = plan_and_judge_word(widths, planning, judge, plan, Some(of), word, is_bare)?;
        let Some(verdict) = judged else {
            return Ok(None);
        };
        if is_worth(judge.grammar(), of, word, verdict) {
            self.known.keep(judge.alloc(), of, word, is_bare, verdict);
        }
        Ok(Some(verdict))
    }

    /// What `plan_and_judge_word` answers, which may be known.
    pub fn judge_word(
        &mut self,
        widths: Widths,
        planning: Planning,
        judge: &Judge<'_>,
        owner: Option<Of>,
        word: &[Token],
        is_bare: bool,
    ) -> Result<Option<Verdict>, NoMemory>
        requires { IsRightlyKept widths (dtd_of judge.now) self.old }
        ensures judges { IfOk result (JudgesWord widths (dtd_of judge.now)
            (option_map plain_of owner) (map plain_token word.now) is_bare) }
        ensures kept { IsRightlyKept widths (dtd_of judge.now) self.new }
    {
        let Some(of) = owner else {
            let plan = &mut self.plan;
            return plan_and_judge_word(widths, planning, judge, plan, owner, word, is_bare);
        };
        if let Some(verdict) = self.known.find(of, word, is_bare) {
            return Ok(Some(verdict));
        }
        self.judge_and_keep(widths, planning, judge, of, word, is_bare)
    }
}
