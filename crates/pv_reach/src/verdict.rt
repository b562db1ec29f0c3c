//! The verdict of a list.

ghost use Rattle.std.specs.Prelude.{◌≡◌, ◌↔◌, ◌+◌, ◌<◌, ◌^◌, ℕ, Bool, IsTrue, List, IfErr, IfOk};
ghost use Rattle.std.specs.Prelude.{MatchOption, Some, length, map};
ghost use Rattle.std.specs.Option.{option_copied, option_map};
ghost use Rattle.pv_model.specs.Models.{Allows};
ghost use Rattle.pv_model.specs.Plain.{empty};
ghost use Rattle.pv_model.specs.PlainForms.{plain_model, plain_token};
ghost use Rattle.pv_dtd.specs.Plain.{declared, model_of};
ghost use Rattle.pv_dtd.specs.Productive.{IsProductive};
ghost use Rattle.pv_rules.specs.Sites.{content_site, name_site};
ghost use Rattle.pv_productive.specs.PlainForms.{dtd_of};
ghost use Rattle.pv_tree.specs.Lists.{Listed};
ghost use Rattle.pv_tree.specs.PlainForms.{forest};
ghost use Rattle.pv_tree.specs.Words.{word_of};
ghost use Rattle.pv_tree.specs.declared.nodes.Mark.{Mark};
ghost use Rattle.pv_missing.specs.LiveWords.{AreProductiveTokens};
ghost use Rattle.pv_missing.specs.PlainForms.{plain_of};
ghost use Rattle.pv_missing.specs.Verdicts.{IsVerdict};
ghost use Rattle.pv_missing.specs.WordVerdicts.{HoldsOne, IsVerdictByWord};
ghost use Rattle.pv_missing.specs.Widths.{FitsVerdict};
ghost use Rattle.pv_missing.specs.Owners.{IsOwner};
ghost use Rattle.pv_reach.specs.declared.errors.ReachError.TheVariants.{TooWide as too_wide};

use crate::errors::ReachError;
use crate::judge::Judge;
use crate::words::{content_derives, is_element};
use pv_chars::NoMemory;
use pv_missing::{Of, are_productive, is_narrow};
use pv_model::{ContentModel, LaidModel, NameId, Token};
use pv_productive::Grammar;
use pv_steps::Steps;
use pv_tree::{Node, Verdict, word};
use std::sync::ledger::Ledger;

/// The verdict of the document node's list by its word.
fn judge_root(judge: &Judge<'_>, id: NameId, word: &[Token]) -> Result<Verdict, NoMemory>
    requires short { 0 < declared (dtd_of judge.now) → length word.now < 2 ^ 26 }
    requires productive { AreProductiveTokens (dtd_of judge.now) (map plain_token word.now) }
    ensures { IfOk result (λ verdict. (none : Bool) →
        IsVerdictByWord (dtd_of judge.now) (Some (name_site id.0))
        (map plain_token word.now) none verdict) }
{
    if is_element(id, word) {
        return Ok(Verdict::Valid);
    }
    if content_derives(judge, id, word)? {
        Ok(Verdict::Possible)
    } else {
        Ok(Verdict::Impossible)
    }
}

/// The content model of a name that is productive.
fn productive_model(grammar: &Grammar, id: NameId) -> Option<&LaidModel>
    ensures { MatchOption (option_copied result) (¬ IsProductive (dtd_of grammar.now) id.0)
        (λ model. IsProductive (dtd_of grammar.now) id.0 ×
        (model_of (dtd_of grammar.now) id.0 ≡ Some (plain_model model))) }
{
    if id.0 >= grammar.dtd().names() || !grammar.is_productive(id) {
        return None;
    }
    grammar.dtd().laid_model_of(id)
}

/// The verdict of an element's list by its word; a word that the content model allows needs no
/// table.
fn judge_content(
    judge: &Judge<'_>,
    id: NameId,
    word: &[Token],
    is_bare: bool,
) -> Result<Verdict, NoMemory>
    requires short { 0 < declared (dtd_of judge.now) → length word.now < 2 ^ 26 }
    requires productive { AreProductiveTokens (dtd_of judge.now) (map plain_token word.now) }
    ensures { IfOk result (λ verdict. IsVerdictByWord (dtd_of judge.now) (Some (content_site id.0))
        (map plain_token word.now) is_bare verdict) }
{
    let Some(model) = productive_model(judge.grammar(), id) else {
        return Ok(Verdict::Impossible);
    };
    if !may_have_kids(model, is_bare) {
        return Ok(Verdict::Impossible);
    }
    if is_allowed(judge, model, word)? {
        return Ok(Verdict::Valid);
    }
    if content_derives(judge, id, word)? {
        Ok(Verdict::Possible)
    } else {
        Ok(Verdict::Impossible)
    }
}

/// Whether a content model allows a word.
fn is_allowed(judge: &Judge<'_>, model: &LaidModel, word: &[Token]) -> Result<bool, NoMemory>
    ensures { IfOk result (λ is. IsTrue is ↔ Allows (declared (dtd_of judge.now))
        (plain_model model.now) (map plain_token word.now)) }
{
    model
        .allows(judge.alloc(), judge.grammar().dtd().count(), word)
        .map_err(|_| NoMemory)
}

/// Whether an element of this model may have kids, or has none of any kind.
fn may_have_kids(model: &LaidModel, is_bare: bool) -> bool
    ensures { IsTrue result ↔ (plain_model model.now ≡ empty → IsTrue is_bare) }
{
    match model.model() {
        ContentModel::Empty => is_bare,
        ContentModel::Any => true,
        ContentModel::Mixed(_) => true,
        ContentModel::Children(_) => true,
    }
}

/// The verdict of a list by its owner, its word, and whether it has no kids of any kind.
fn judge_owned(
    judge: &Judge<'_>,
    of: Of,
    word: &[Token],
    is_bare: bool,
) -> Result<Verdict, NoMemory>
    requires short { 0 < declared (dtd_of judge.now) → length word.now < 2 ^ 26 }
    ensures { IfOk result (λ verdict. IsVerdictByWord (dtd_of judge.now) (Some (plain_of of))
        (map plain_token word.now) is_bare verdict) }
{
    if !are_productive(judge.grammar(), word) {
        return Ok(Verdict::Impossible);
    }
    match of {
        Of::Root(id) => judge_root(judge, id, word),
        Of::Elem(id) => judge_content(judge, id, word, is_bare),
    }
}

/// The verdict of a list by its owner, its word, and whether it has no kids of any kind: as that of
/// `list_verdict`, without a tree, by a plan that is laid out once, and on no counter.
pub fn judge_word(
    judge: &Judge<'_>,
    owner: Option<Of>,
    word: &[Token],
    is_bare: bool,
) -> Result<Verdict, ReachError>
    ensures verdict { IfOk result (λ verdict. IsVerdictByWord (dtd_of judge.now)
        (option_map plain_of owner) (map plain_token word.now) is_bare verdict) }
    ensures fits { IfOk result (λ _. FitsVerdict (dtd_of judge.now) (length word.now)) }
    ensures wide { IfErr result (λ e. e ≡ too_wide →
        ¬ FitsVerdict (dtd_of judge.now) (length word.now)) }
{
    if !is_narrow(judge.grammar().dtd(), word.len() as u64) {
        return Err(ReachError::TooWide);
    }
    let Some(of) = owner else {
        return Ok(Verdict::Impossible);
    };
    let verdict = judge_owned(judge, of, word, is_bare)?;
    Ok(verdict)
}

// So many tokens a word may have, whatever it is judged by: one for each byte of a document.
const MAX_TOKENS: usize = 67_108_864;

/// The verdict of a list as `judge_word` finds it, however wide the list is: by a table over the
/// columns that its owner needs, of 268,435,456 numbers at most, for which there may be too little
/// memory.
pub fn judge_any_word(
    judge: &Judge<'_>,
    owner: Option<Of>,
    word: &[Token],
    is_bare: bool,
) -> Result<Verdict, NoMemory>
    ensures { IfOk result (λ verdict. IsVerdictByWord (dtd_of judge.now)
        (option_map plain_of owner) (map plain_token word.now) is_bare verdict) }
{
    if word.len() >= MAX_TOKENS {
        return Err(NoMemory);
    }
    let Some(of) = owner else {
        return Ok(Verdict::Impossible);
    };
    judge_owned(judge, of, word, is_bare)
}

/// The verdict of a list by its owner and its kids, as `list_verdict` finds it, by a plan that is
/// laid out once, and on no counter.
pub fn judge_kids(
    judge: &Judge<'_>,
    owner: Option<Of>,
    kids: &[Node],
) -> Result<Verdict, ReachError>
    ensures verdict { IfOk result (λ verdict. (root : List ℕ) (list : Listed Mark) →
        list.kids ≡ forest kids.now → IsOwner (dtd_of judge.now) root list owner →
        HoldsOne list.owner list.kids → IsVerdict (dtd_of judge.now) root list verdict) }
    ensures fits { IfOk result (λ _. FitsVerdict (dtd_of judge.now)
        (length (word_of (dtd_of judge.now) (forest kids.now)))) }
    ensures wide { IfErr result (λ e. e ≡ too_wide → ¬ FitsVerdict (dtd_of judge.now)
        (length (word_of (dtd_of judge.now) (forest kids.now)))) }
{
    let tokens = word(judge.alloc(), judge.grammar().dtd(), kids)?;
    let verdict = judge_word(judge, owner, tokens.as_slice(), kids.is_empty())?;
    Ok(verdict)
}

/// What `judge_word` answers, in one step.
pub fn word_verdict<L: Ledger>(
    judge: &Judge<'_>,
    owner: Option<Of>,
    word: &[Token],
    is_bare: bool,
    steps: &mut Steps<L>,
) -> Result<Verdict, ReachError>
    ensures verdict { IfOk result (λ verdict. IsVerdictByWord (dtd_of judge.now)
        (option_map plain_of owner) (map plain_token word.now) is_bare verdict) }
    ensures fits { IfOk result (λ _. FitsVerdict (dtd_of judge.now) (length word.now)) }
    ensures wide { IfErr result (λ e. e ≡ too_wide →
        ¬ FitsVerdict (dtd_of judge.now) (length word.now)) }
    ensures steps { steps.new ≡ steps.old + 1 }
{
    steps.tick();
    judge_word(judge, owner, word, is_bare)
}
