//! The rules of a grammar, laid out once for all words.

ghost use Rattle.std.specs.Prelude.{◌≡◌, ◌<◌, ◌+◌, ◌^◌, IfOk, length};
ghost use Rattle.pv_columns.specs.ColumnRules.{InRange};
ghost use Rattle.pv_columns.specs.Marks.{ReadAlone};
ghost use Rattle.pv_productive.specs.PlainForms.{dtd_of};
ghost use Rattle.pv_reach.specs.Columns.{AreRules, width_of};
ghost use Rattle.pv_reach.specs.Cuts.{AreOwnSets, AreRanges};
ghost use Rattle.pv_reach.specs.Merging.{AreHeadsBare};
ghost use Rattle.pv_reach.specs.Plans.{IsPlan, IsReplacement};

use crate::columns::bare::bare_columns;
use crate::columns::free::free_sets;
use crate::columns::led::merging_of;
use crate::columns::merging::{Merging, merge};
use crate::columns::order::rule_order;
use crate::columns::ranges::RuleRanges;
use crate::graph::components::components_of;
use crate::rules::adding::any_column;
use crate::rules::layout::rules_of;
use crate::tables::kept::{Cuts, cuts_of};
use pv_chars::NoMemory;
use pv_columns::{ColumnRule, FreeSets};
use pv_productive::Grammar;
use std::alloc::{AllocError, Global};

/// The rules by which the columns of a grammar reach over words: whoever finds many verdicts lays
/// them out once.
#[derive(Debug, Drop)]
pub struct Plan {
    pub(crate) rules: Vec<ColumnRule>,
    /// For each column of the DTD the one that stands for it.
    pub(crate) heads: Vec<usize>,
    pub(crate) width: usize,
    /// The sets of the columns that are free.
    pub(crate) free: FreeSets,
    /// Where the rules of each column stand.
    pub(crate) ranges: RuleRanges,
    /// What owners need whose contents aren't free.
    pub(crate) cuts: Cuts,
}

impl Plan {
    /// Lays out the rules of a grammar, in a time about linear in it.
    pub fn of(alloc: Global, grammar: &Grammar) -> Result<Plan, NoMemory>
        ensures { IfOk result (λ plan. IsPlan (dtd_of grammar.now) plan) }
    {
        let rules = rules_of(alloc, grammar)?;
        let plan = plan_over(alloc, grammar, &rules)?;
        let plan = with_cuts(alloc, grammar, plan)?;
        Ok(plan)
    }
}

/// The number of columns of a DTD.
fn width_of(grammar: &Grammar) -> usize
    ensures width { result ≡ width_of (dtd_of grammar.now) }
    ensures narrow { result < 2 ^ 25 }
{
    any_column(grammar) + 1
}

/// The plan with the cuts of the grammar's names.
fn with_cuts(alloc: Global, grammar: &Grammar, plan: Plan) -> Result<Plan, AllocError>
    requires { IsPlan (dtd_of grammar.now) plan }
    ensures { IfOk result (λ new. IsPlan (dtd_of grammar.now) new) }
{
    let mut plan = plan;
    plan.cuts = cuts_of(alloc, &plan, grammar.dtd().names() as usize)?;
    Ok(plan)
}

/// The rules of a grammar over the columns that stand for others, and what they were merged by.
fn merged_rules(
    alloc: Global,
    grammar: &Grammar,
    rules: &[ColumnRule],
    width: usize,
) -> Result<(Merging, Vec<ColumnRule>), AllocError>
    requires rules { AreRules (dtd_of grammar.now) rules.now }
    requires width { width ≡ width_of (dtd_of grammar.now) }
    requires narrow { width < 2 ^ 25 }
    ensures { IfOk result (λ merged. IsReplacement (dtd_of grammar.now) rules.now merged.0
        merged.1.items (width + length merged.0.led.items)) }
{
    let bare = bare_columns(alloc, grammar, rules, width)?;
    let components = components_of(alloc, rules, &bare, width)?;
    let order = rule_order(alloc, rules, &components.columns, width)?;
    let merging = merging_of(alloc, rules, bare, components.heads)?;
    let merged = merge(alloc, rules, &merging, &order)?;
    Ok((merging, merged))
}

/// The sets of the columns below `width` that are free, and where the rules of each stand.
fn sets_and_ranges(
    alloc: Global,
    rules: &[ColumnRule],
    merging: &Merging,
    width: usize,
) -> Result<(FreeSets, RuleRanges), AllocError>
    requires in_range { InRange width rules.now }
    requires heads { AreHeadsBare rules.now merging.now.bare.items merging.now.heads.items }
    requires alone { ReadAlone rules.now }
    ensures free { IfOk result (λ found. AreOwnSets rules.now width found.0) }
    ensures ranges { IfOk result (λ found. AreRanges rules.now found.1) }
{
    let free = free_sets(alloc, rules, merging, width)?;
    let ranges = RuleRanges::of(alloc, rules, width)?;
    Ok((free, ranges))
}

/// The plan of a grammar by its rules, without cuts.
fn plan_over(alloc: Global, grammar: &Grammar, rules: &[ColumnRule]) -> Result<Plan, AllocError>
    requires { AreRules (dtd_of grammar.now) rules.now }
    ensures { IfOk result (λ plan. IsPlan (dtd_of grammar.now) plan) }
{
    let width = width_of(grammar);
    let (merging, rules) = merged_rules(alloc, grammar, rules, width)?;
    let wider = width + merging.led.len();
    let (free, ranges) = sets_and_ranges(alloc, &rules, &merging, wider)?;
    Ok(Plan {
        rules,
        heads: merging.heads,
        width: wider,
        free,
        ranges,
        cuts: Cuts::none(alloc, 0),
    })
}
