//! Whether a word is possible.

ghost use Rattle.std.specs.Prelude.{◌≡◌, ◌↔◌, ◌∷◌, ◌+◌, ◌<◌, ◌^◌, [], IfErr, IfOk, IsTrue};
ghost use Rattle.std.specs.Prelude.{length, map};
ghost use Rattle.pv_model.specs.PlainForms.{plain_token};
ghost use Rattle.pv_model.specs.Plain.{named};
ghost use Rattle.pv_dtd.specs.Plain.{declared};
ghost use Rattle.pv_rules.specs.Sites.{content_site};
ghost use Rattle.pv_productive.specs.PlainForms.{dtd_of};
ghost use Rattle.pv_missing.specs.LiveWords.{AreProductiveTokens};
ghost use Rattle.pv_missing.specs.PlainForms.{plain_of};
ghost use Rattle.pv_missing.specs.Widths.{FitsVerdict};
ghost use Rattle.pv_missing.specs.WordVerdicts.{IsPossibleAt};
ghost use Rattle.pv_rules.specs.SiteDerivations.{DerivesAt};
ghost use Rattle.pv_reach.specs.Plans.{IsPlan};
ghost use Rattle.pv_reach.specs.declared.errors.ReachError.TheVariants.{TooWide as too_wide};

use crate::columns::merging::column_head;
use crate::errors::ReachError;
use crate::judge::Judge;
use crate::plan::Plan;
use crate::tables::by_cut::column_reaches;
use pv_chars::NoMemory;
use pv_missing::{Of, is_narrow};
use pv_model::{NameId, Token};
use pv_productive::Grammar;
use pv_steps::Steps;
use std::alloc::{AllocError, Global};
use std::sync::ledger::Ledger;

/// Whether the content of a name derives the whole word, by a plan of the grammar. Free content
/// derives each word of tokens that it takes, so that no table is needed.
fn derives_by(
    judge: &Judge<'_>,
    plan: &Plan,
    id: NameId,
    word: &[Token],
) -> Result<bool, AllocError>
    requires plan { IsPlan (dtd_of judge.now) plan.now }
    requires known { id.0 < declared (dtd_of judge.now) }
    requires short { length word.now < 2 ^ 26 }
    requires productive { AreProductiveTokens (dtd_of judge.now) (map plain_token word.now) }
    ensures { IfOk result (λ b. IsTrue b ↔ DerivesAt (dtd_of judge.now)
        (map plain_token word.now) (content_site id.0) 0 (length word.now)) }
{
    let column = column_head(&plan.heads, id.0 as usize);
    if let Some(covers) = plan.free.covers(column, word) {
        return Ok(covers);
    }
    column_reaches(judge.alloc(), plan, word, column)
}

/// Whether the content of a name derives the whole word, which is short and has productive names
/// only. Where the rules of the grammar aren't laid out, they are laid out for this word.
pub fn content_derives(judge: &Judge<'_>, id: NameId, word: &[Token]) -> Result<bool, NoMemory>
    requires short { 0 < declared (dtd_of judge.now) → length word.now < 2 ^ 26 }
    requires productive { AreProductiveTokens (dtd_of judge.now) (map plain_token word.now) }
    ensures { IfOk result (λ b. IsTrue b ↔ DerivesAt (dtd_of judge.now)
        (map plain_token word.now) (content_site id.0) 0 (length word.now)) }
{
    if id.0 >= judge.grammar().dtd().count() {
        return Ok(false);
    }
    if let Some(plan) = judge.plan() {
        return Ok(derives_by(judge, plan, id, word)?);
    }
    let plan = Plan::of(judge.alloc(), judge.grammar())?;
    let derives = derives_by(judge, &plan, id, word)?;
    Ok(derives)
}

/// Whether the word is one element of this name.
pub(crate) fn is_element(id: NameId, word: &[Token]) -> bool
    ensures { IsTrue result ↔ (map plain_token word.now ≡ named id.0 ∷ []) }
{
    word.len() == 1 && word[0] == Token::Name(id)
}

/// Whether a word that isn't too wide is possible, by a plan of the grammar.
fn is_possible(judge: &Judge<'_>, of: Of, word: &[Token]) -> Result<bool, NoMemory>
    requires fits { FitsVerdict (dtd_of judge.now) (length word.now) }
    requires productive { AreProductiveTokens (dtd_of judge.now) (map plain_token word.now) }
    ensures { IfOk result (λ b. IsTrue b ↔
        IsPossibleAt (dtd_of judge.now) (plain_of of) (map plain_token word.now)) }
{
    let derives = match of {
        Of::Root(id) => is_element(id, word) || content_derives(judge, id, word)?,
        Of::Elem(id) => content_derives(judge, id, word)?,
    };
    Ok(derives)
}

/// Whether a word of productive names is possible for the document node or for the content of an
/// element.
///
/// `TooWide` is asked first, and takes no memory. Where the content isn't free there is a table,
/// which takes four bytes for each column that is needed and each place of the word.
pub fn possible<L: Ledger>(
    alloc: Global,
    grammar: &Grammar,
    of: Of,
    word: &[Token],
    steps: &mut Steps<L>,
) -> Result<bool, ReachError>
    requires productive { AreProductiveTokens (dtd_of grammar.now) (map plain_token word.now) }
    ensures possible { IfOk result (λ b. IsTrue b ↔
        IsPossibleAt (dtd_of grammar.now) (plain_of of) (map plain_token word.now)) }
    ensures fits { IfOk result (λ _. FitsVerdict (dtd_of grammar.now) (length word.now)) }
    ensures wide { IfErr result (λ e. e ≡ too_wide →
        ¬ FitsVerdict (dtd_of grammar.now) (length word.now)) }
    ensures steps { steps.new ≡ steps.old + 1 }
{
    steps.tick();
    if !is_narrow(grammar.dtd(), word.len() as u64) {
        return Err(ReachError::TooWide);
    }
    let plan = Plan::of(alloc, grammar)?;
    let judge = Judge::new(alloc, grammar, &plan);
    let derives = is_possible(&judge, of, word)?;
    Ok(derives)
}
