//! A grammar, and the plan of its rules, which is laid out at the first text that isn't a valid
//! document.

ghost use Rattle.std.specs.Prelude.{◌≡◌, IfErr, IfOk, IsTrue};
ghost use Rattle.pv_dtd.specs.PlainForms.{plain_dtd};
ghost use Rattle.pv_many.specs.ValidTexts.{IsValidText};
ghost use Rattle.pv_productive.specs.PlainForms.{dtd_of};
ghost use Rattle.pv_read.specs.Errors.{Refuses};
ghost use Rattle.pv_read.specs.Meaning.{DocumentMeans};
ghost use Rattle.pv_tree.specs.Marks.{blank_mark};

use crate::valid_text::is_valid_text;
use pv_chars::NoMemory;
use pv_dtd::Dtd;
use pv_productive::{Grammar, build};
use pv_reach::{Judge, Plan};
use pv_read::DocError;
use std::alloc::Global;
use std::marker::Model;

/// A grammar, and the plan of its rules once they are laid out. Contracts see the grammar.
#[derive(Drop)]
pub struct Planner {
    alloc: Global,
    grammar: Grammar,
    plan: Option<Plan>,
}

impl Model for Planner {
    ghost use Rattle.pv_productive.specs.declared.grammar.Grammar.{Grammar};
    ghost use Rattle.pv_productive.specs.contracts.grammar.Grammar as grammar_row;

    ghost Value = { Grammar };

    ghost coded = { grammar_row.the_row.coded };

    ghost view = { λ p. p.grammar };

    ghost use Rattle.std.specs.Prelude.{IfSome};
    ghost use Rattle.pv_productive.specs.PlainForms.{dtd_of};
    ghost use Rattle.pv_reach.specs.Plans.{IsPlan};

    ghost invariant = { λ p. IfSome p.plan (IsPlan (dtd_of p.grammar)) };
}

impl Planner {
    /// The grammar of a DTD, without a plan so far.
    pub fn of(alloc: Global, dtd: Dtd) -> Result<Planner, NoMemory>
        ensures { IfOk result (λ planner. dtd_of planner ≡ plain_dtd dtd) }
    {
        let grammar = build(alloc, dtd)?;
        Ok(Planner {
            alloc,
            grammar,
            plan: None,
        })
    }

    /// Where memory comes from.
    pub fn alloc(&self) -> Global {
        self.alloc
    }

    /// What judges lists, by the plan if there is one.
    pub fn judge(&self) -> Judge<'_>
        ensures { result ≡ self.now }
    {
        match &self.plan {
            Some(plan) => Judge::new(self.alloc, &self.grammar, plan),
            None => Judge::without_plan(self.alloc, &self.grammar),
        }
    }

    // Lays out the rules.
    fn lay_out(&mut self) -> Result<(), NoMemory>
        ensures { self.new ≡ self.old }
    {
        let plan = Plan::of(self.alloc, &self.grammar)?;
        self.plan = Some(plan);
        Ok(())
    }

    /// Whether a text is seen to be a valid document, which needs no plan. Where it isn't, the
    /// rules are laid out, once; after that no text is read here.
    pub fn find_valid(&mut self, root: &[u8], bytes: &[u8]) -> Result<bool, DocError>
        ensures valid { IfOk result (λ valid. IsTrue valid →
            IsValidText (dtd_of self.old) root.now bytes.now) }
        ensures refused { IfErr result (λ error.
            Refuses (DocumentMeans blank_mark root.now bytes.now) error) }
        ensures same { self.new ≡ self.old }
    {
        if self.plan.is_some() {
            return Ok(false);
        }
        if is_valid_text(self.alloc, self.grammar.dtd(), root, bytes)? {
            return Ok(true);
        }
        self.lay_out()?;
        Ok(false)
    }
}
