//! Calls of this library that the program doesn't make. They stand for other callers.

ghost use Rattle.std.specs.Prelude.{◌≡◌, ◌+◌, ℕ, IfErr, IfOk, List, length, map};
ghost use Rattle.pv_model.specs.PlainForms.{plain_token};
ghost use Rattle.pv_productive.specs.PlainForms.{dtd_of};
ghost use Rattle.pv_tree.specs.Lists.{Listed};
ghost use Rattle.pv_tree.specs.PlainForms.{forest};
ghost use Rattle.pv_tree.specs.Words.{word_of};
ghost use Rattle.pv_tree.specs.declared.nodes.Mark.{Mark};
ghost use Rattle.pv_missing.specs.LiveWords.{AreProductiveTokens};
ghost use Rattle.pv_missing.specs.Owners.{IsOwner};
ghost use Rattle.pv_missing.specs.Verdicts.{IsVerdict};
ghost use Rattle.pv_missing.specs.Widths.{FitsVerdict};
ghost use Rattle.pv_missing.specs.WordVerdicts.{HoldsOne};
ghost use Rattle.pv_reach.specs.FurthestEnds.{AreReaches};
ghost use Rattle.pv_reach.specs.declared.errors.ReachError.TheVariants.{TooWide as too_wide};

use crate::errors::ReachError;
use crate::judge::Judge;
use crate::plan::Plan;
use crate::reaches::{Reaches, furthest_over};
use crate::verdict::judge_kids;
use pv_missing::Of;
use pv_model::Token;
use pv_productive::Grammar;
use pv_steps::Steps;
use pv_tree::{Node, Verdict};
use std::alloc::Global;
use std::sync::ledger::Ledger;

/// The verdict of a list: `owner` is `None` where the DTD doesn't have the name of the element that
/// owns it, or, for the document node, the root's name.
///
/// `TooWide` is asked before the verdict. A list that is valid by itself, whose owner and names are
/// productive, takes no table. The call lays out a plan of the grammar; who asks for many verdicts
/// lays it out once, and asks `judge_kids`. The document node's list is its root alone; of other
/// kids with this owner nothing is said.
pub fn list_verdict<L: Ledger>(
    alloc: Global,
    grammar: &Grammar,
    owner: Option<Of>,
    kids: &[Node],
    steps: &mut Steps<L>,
) -> Result<Verdict, ReachError>
    ensures verdict { IfOk result (λ verdict. (root : List ℕ) (list : Listed Mark) →
        list.kids ≡ forest kids.now → IsOwner (dtd_of grammar.now) root list owner →
        HoldsOne list.owner list.kids → IsVerdict (dtd_of grammar.now) root list verdict) }
    ensures fits { IfOk result (λ _. FitsVerdict (dtd_of grammar.now)
        (length (word_of (dtd_of grammar.now) (forest kids.now)))) }
    ensures wide { IfErr result (λ e. e ≡ too_wide → ¬ FitsVerdict (dtd_of grammar.now)
        (length (word_of (dtd_of grammar.now) (forest kids.now)))) }
    ensures steps { steps.new ≡ steps.old + 1 }
{
    steps.tick();
    let plan = Plan::of(alloc, grammar)?;
    let judge = Judge::new(alloc, grammar, &plan);
    judge_kids(&judge, owner, kids)
}

/// For each site and each place of a word of productive names the furthest place to which the site
/// has a derivation.
///
/// `TooWide` is asked first, and takes no memory. The table takes four bytes for each column and
/// each place of the word, and as much for the members of sequences.
pub fn furthest(alloc: Global, grammar: &Grammar, word: &[Token]) -> Result<Reaches, ReachError>
    requires { AreProductiveTokens (dtd_of grammar.now) (map plain_token word.now) }
    ensures reaches { IfOk result (λ reaches.
        AreReaches (dtd_of grammar.now) (map plain_token word.now) reaches) }
    ensures fits { IfOk result (λ _. FitsVerdict (dtd_of grammar.now) (length word.now)) }
    ensures wide { IfErr result (λ e. e ≡ too_wide →
        ¬ FitsVerdict (dtd_of grammar.now) (length word.now)) }
{
    furthest_over(alloc, grammar, None, word)
}
