//! What verdicts are found by.

use crate::free_content::FreeContent;
use crate::plan::Plan;
use pv_model::NameId;
use pv_productive::Grammar;
use std::alloc::Global;
use std::marker::Model;

/// A grammar, and the plan of its rules, where these are laid out. Contracts see the grammar.
#[derive(Drop)]
pub struct Judge<'a> {
    alloc: Global,
    grammar: &'a Grammar,
    plan: Option<&'a Plan>,
}

impl<'a> Model for Judge<'a> {
    ghost use Rattle.pv_productive.specs.declared.grammar.Grammar.{Grammar};
    ghost use Rattle.pv_productive.specs.contracts.grammar.Grammar as grammar_row;

    ghost Value = { Grammar };

    ghost coded = { grammar_row.the_row.coded };

    ghost use Rattle.pv_productive.specs.PlainForms.{dtd_of};
    ghost use Rattle.pv_reach.specs.Plans.{IsPlan};

    ghost view = { λ j. j.grammar.now };

    ghost use Rattle.std.specs.Prelude.{IfSome};

    ghost invariant = { λ j. IfSome j.plan (λ plan. IsPlan (dtd_of j.grammar.now) plan.now) };
}

impl<'a> Judge<'a> {
    ghost use Rattle.std.specs.Prelude.{◌≡◌, IfSome};
    ghost use Rattle.pv_productive.specs.PlainForms.{dtd_of};
    ghost use Rattle.pv_reach.specs.Plans.{IsPlan};
    ghost use Rattle.pv_reach.specs.TokensTaken.{IsFreeContent};

    /// Judges by a grammar, whose plan this is.
    pub fn new(alloc: Global, grammar: &'a Grammar, plan: &'a Plan) -> Judge<'a>
        requires { IsPlan (dtd_of grammar.now) plan.now }
        ensures { result ≡ grammar.now }
    {
        Judge {
            alloc,
            grammar,
            plan: Some(plan),
        }
    }

    /// Judges by a grammar whose rules aren't laid out: they are laid out anew for each list that
    /// isn't valid by itself. Where all lists are valid, that is no plan at all.
    pub fn without_plan(alloc: Global, grammar: &'a Grammar) -> Judge<'a>
        ensures { result ≡ grammar.now }
    {
        Judge {
            alloc,
            grammar,
            plan: None,
        }
    }

    /// Where memory comes from.
    pub fn alloc(&self) -> Global {
        self.alloc
    }

    /// The grammar.
    pub fn grammar(&self) -> &'a Grammar
        ensures { result.now ≡ self.now }
    {
        self.grammar
    }

    /// The plan of the rules, where they are laid out.
    pub(crate) fn plan(&self) -> Option<&'a Plan>
        ensures { IfSome result (λ plan. IsPlan (dtd_of self.now) plan.now) }
    {
        self.plan
    }

    /// The content of a name, where it is found to be free and the rules are laid out.
    pub fn free_content(&self, id: NameId) -> Option<FreeContent<'a>>
        ensures free { IfSome result (λ _. IsFreeContent (dtd_of self.now) id.0) }
        ensures content { IfSome result (λ content.
            content ≡ record { grammar = self.now; name = id.0 }) }
    {
        let plan = self.plan?;
        FreeContent::of(self.grammar, plan, id)
    }
}
