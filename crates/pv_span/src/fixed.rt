//! Calls of this library that the program doesn't make. They stand for other callers.

ghost use Rattle.std.specs.Prelude.{◌≡◌, ◌↔◌, ◌+◌, ℕ, IfErr, IfOk, IsTrue, List, length, map};
ghost use Rattle.pv_model.specs.PlainForms.{plain_token};
ghost use Rattle.pv_productive.specs.PlainForms.{dtd_of};
ghost use Rattle.pv_tree.specs.Lists.{Listed};
ghost use Rattle.pv_tree.specs.PlainForms.{forest};
ghost use Rattle.pv_tree.specs.Words.{word_of};
ghost use Rattle.pv_tree.specs.declared.nodes.Mark.{Mark};
ghost use Rattle.pv_missing.specs.LiveWords.{AreProductiveTokens};
ghost use Rattle.pv_missing.specs.Owners.{IsOwner};
ghost use Rattle.pv_missing.specs.PlainForms.{plain_of};
ghost use Rattle.pv_missing.specs.Verdicts.{IsVerdict};
ghost use Rattle.pv_missing.specs.Widths.{FitsWeights};
ghost use Rattle.pv_missing.specs.WordVerdicts.{HoldsOne, IsPossibleAt};
ghost use Rattle.pv_span.specs.Weights.{AreWeights};
ghost use Rattle.pv_span.specs.declared.errors.SpanError.TheVariants.{TooWide as too_wide};

use crate::errors::SpanError;
use crate::fill::chart_of;
use crate::owners::is_known_owner;
use crate::verdict::{is_possible, judge};
use crate::weighing::{Spans, is_narrow};
use pv_layout::{SiteColumns, lay_out};
use pv_missing::{Of, live_word};
use pv_model::Token;
use pv_productive::Grammar;
use pv_steps::Steps;
use pv_tree::{Node, Verdict, word};
use std::alloc::Global;
use std::sync::ledger::Ledger;

/// The weights of all sites over all spans of a word whose names are productive, as `weights_by`
/// finds them, under a grammar that is laid out for this word alone.
pub fn weights(
    alloc: Global,
    grammar: &Grammar,
    word: &[Token],
) -> Result<Spans<'static>, SpanError>
    requires productive { AreProductiveTokens (dtd_of grammar.now) (map plain_token word.now) }
    ensures weights { IfOk result (λ spans. AreWeights (dtd_of grammar.now)
        (map plain_token word.now) spans) }
    ensures fits { IfOk result (λ _. FitsWeights (dtd_of grammar.now) (length word.now)) }
    ensures wide { IfErr result (λ e. e ≡ too_wide →
        ¬ FitsWeights (dtd_of grammar.now) (length word.now)) }
{
    if !is_narrow(grammar, word.len()) {
        return Err(SpanError::TooWide);
    }
    let layout = lay_out(alloc, grammar)?;
    let names = layout.grammar.dtd().names();
    let chart = chart_of(alloc, &layout.forms, &layout.mentions, names, word)?;
    Ok(Spans {
        chart,
        sites: SiteColumns::Own(layout.sites),
    })
}

/// Whether a word of productive names is possible for the document node or for the content of an
/// element.
///
/// `TooWide` is asked first, and takes no memory.
pub fn member<L: Ledger>(
    alloc: Global,
    grammar: &Grammar,
    of: Of,
    word: &[Token],
    steps: &mut Steps<L>,
) -> Result<bool, SpanError>
    requires productive { AreProductiveTokens (dtd_of grammar.now) (map plain_token word.now) }
    ensures possible { IfOk result (λ b. IsTrue b ↔
        IsPossibleAt (dtd_of grammar.now) (plain_of of) (map plain_token word.now)) }
    ensures fits { IfOk result (λ _. FitsWeights (dtd_of grammar.now) (length word.now)) }
    ensures wide { IfErr result (λ e. e ≡ too_wide →
        ¬ FitsWeights (dtd_of grammar.now) (length word.now)) }
    ensures steps { steps.new ≡ steps.old + 1 }
{
    steps.tick();
    if !is_narrow(grammar, word.len()) {
        return Err(SpanError::TooWide);
    }
    if !is_known_owner(grammar, of) {
        return Ok(false);
    }
    Ok(is_possible(alloc, grammar, of, word)?)
}

/// The verdict of a list: `owner` is `None` where the DTD doesn't have the name of the element that
/// owns it, or, for the document node, the root's name.
///
/// `TooWide` is asked before the verdict. The document node's list is its root alone; of other kids
/// with this owner nothing is said.
pub fn list_verdict<L: Ledger>(
    alloc: Global,
    grammar: &Grammar,
    owner: Option<Of>,
    kids: &[Node],
    steps: &mut Steps<L>,
) -> Result<Verdict, SpanError>
    ensures verdict { IfOk result (λ verdict. (root : List ℕ) (list : Listed Mark) →
        list.kids ≡ forest kids.now → IsOwner (dtd_of grammar.now) root list owner →
        HoldsOne list.owner list.kids → IsVerdict (dtd_of grammar.now) root list verdict) }
    ensures fits { IfOk result (λ _. FitsWeights (dtd_of grammar.now)
        (length (word_of (dtd_of grammar.now) (forest kids.now)))) }
    ensures wide { IfErr result (λ e. e ≡ too_wide → ¬ FitsWeights (dtd_of grammar.now)
        (length (word_of (dtd_of grammar.now) (forest kids.now)))) }
    ensures steps { steps.new ≡ steps.old + 1 }
{
    steps.tick();
    let tokens = word(alloc, grammar.dtd(), kids)?;
    if !is_narrow(grammar, tokens.as_slice().len()) {
        return Err(SpanError::TooWide);
    }
    let Some(of) = owner else {
        return Ok(Verdict::Impossible);
    };
    let live = live_word(alloc, grammar, kids)?;
    let verdict = judge(
        alloc,
        grammar,
        of,
        tokens.as_slice(),
        live.as_slice(),
        kids.is_empty(),
    )?;
    Ok(verdict)
}
