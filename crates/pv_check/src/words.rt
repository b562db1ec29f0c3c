//! Lists judged by their words.

ghost use Rattle.std.specs.Prelude.{◌≡◌, ◌↔◌, IfOk, IfSome, IsTrue, Some, length, map};
ghost use Rattle.std.specs.Option.{option_copied, option_map};
ghost use Rattle.pv_model.specs.Models.{Allows};
ghost use Rattle.pv_model.specs.Plain.{empty};
ghost use Rattle.pv_model.specs.PlainForms.{plain_model, plain_token};
ghost use Rattle.pv_dtd.specs.Plain.{declared, model_of};
ghost use Rattle.pv_dtd.specs.Productive.{IsProductive};
ghost use Rattle.pv_rules.specs.Sites.{content_site};
ghost use Rattle.pv_productive.specs.PlainForms.{dtd_of};
ghost use Rattle.pv_tree.specs.declared.nodes.Verdict.TheVariants.{Valid};
ghost use Rattle.pv_missing.specs.PlainForms.{plain_of};
ghost use Rattle.pv_missing.specs.WordVerdicts.{IsVerdictByWord};
ghost use Rattle.pv_reach.specs.Plans.{IsPlan};
ghost use Rattle.pv_check.specs.ListJudgements.{FitsWithin, JudgesWord, site_of_token};

use crate::planning::Planning;
use crate::widths::Widths;
use pv_chars::NoMemory;
use pv_missing::{Of, are_productive};
use pv_model::{ContentModel, LaidModel, NameId, Token};
use pv_productive::Grammar;
use pv_reach::{Judge, Plan, ReachError, judge_any_word};
use pv_tree::Verdict;

/// Whose list that of an element is which has this token in the list that it stands in.
pub fn owner_of(token: Token) -> Option<Of>
    ensures { option_map plain_of result ≡ site_of_token (plain_token token) }
{
    match token {
        Token::Name(id) => Some(Of::Elem(id)),
        Token::Text => None,
        Token::Other => None,
    }
}

/// The verdict of a list by its owner, its word, and whether it has no kids of any kind; none where
/// it is too wide. The caller counts the list.
pub fn judge_word(
    widths: Widths,
    judge: &Judge<'_>,
    owner: Option<Of>,
    word: &[Token],
    is_bare: bool,
) -> Result<Option<Verdict>, NoMemory>
    ensures { IfOk result (JudgesWord widths (dtd_of judge.now) (option_map plain_of owner)
        (map plain_token word.now) is_bare) }
{
    if matches!(widths, Widths::Any) {
        let verdict = judge_any_word(judge, owner, word, is_bare)?;
        return Ok(Some(verdict));
    }
    match pv_reach::judge_word(judge, owner, word, is_bare) {
        Ok(verdict) => Ok(Some(verdict)),
        Err(ReachError::TooWide) => Ok(None),
        Err(ReachError::NoMemory) => Err(NoMemory),
    }
}

/// Whether a list of this word isn't too wide.
pub fn is_narrow(widths: Widths, judge: &Judge<'_>, word: &[Token]) -> bool
    ensures { IsTrue result ↔ FitsWithin widths (dtd_of judge.now) (length word.now) }
{
    match widths {
        Widths::Limited => pv_missing::is_narrow(judge.grammar().dtd(), word.len() as u64),
        Widths::Any => true,
    }
}

/// The content model of a name that is productive.
pub fn productive_model(grammar: &Grammar, id: NameId) -> Option<&LaidModel>
    ensures { IfSome (option_copied result) (λ model. IsProductive (dtd_of grammar.now) id.0 ×
        (model_of (dtd_of grammar.now) id.0 ≡ Some (plain_model model))) }
{
    if id.0 >= grammar.dtd().names() || !grammar.is_productive(id) {
        return None;
    }
    grammar.dtd().laid_model_of(id)
}

// Whether an element of this model may have kids, or has none of any kind.
fn may_have_kids(model: &LaidModel, is_bare: bool) -> bool
    ensures { IsTrue result → plain_model model.now ≡ empty → IsTrue is_bare }
{
    is_bare || !matches!(model.model(), ContentModel::Empty)
}

// Whether a content model allows a word.
fn is_allowed(judge: &Judge<'_>, model: &LaidModel, word: &[Token]) -> Result<bool, NoMemory>
    ensures { IfOk result (λ is. IsTrue is ↔ Allows (declared (dtd_of judge.now))
        (plain_model model.now) (map plain_token word.now)) }
{
    model
        .allows(judge.alloc(), judge.grammar().dtd().count(), word)
        .map_err(|_| NoMemory)
}

// Whether the list of an element of this name is seen to be Valid.
fn is_valid_content(
    judge: &Judge<'_>,
    id: NameId,
    word: &[Token],
    is_bare: bool,
) -> Result<bool, NoMemory>
    ensures { IfOk result (λ seen. IsTrue seen → IsVerdictByWord (dtd_of judge.now)
        (Some (content_site id.0)) (map plain_token word.now) is_bare Valid) }
{
    let Some(model) = productive_model(judge.grammar(), id) else {
        return Ok(false);
    };
    if !may_have_kids(model, is_bare) || !are_productive(judge.grammar(), word) {
        return Ok(false);
    }
    is_allowed(judge, model, word)
}

// Whether the list of this owner is seen to be Valid: that of the document never is.
fn is_valid_of(judge: &Judge<'_>, of: Of, word: &[Token], is_bare: bool) -> Result<bool, NoMemory>
    ensures { IfOk result (λ seen. IsTrue seen → IsVerdictByWord (dtd_of judge.now)
        (Some (plain_of of)) (map plain_token word.now) is_bare Valid) }
{
    match of {
        Of::Elem(id) => is_valid_content(judge, id, word, is_bare),
        Of::Root(_) => Ok(false),
    }
}

// Whether a list is seen to be Valid, by its owner, its word, and whether it has no kids of any
// kind: no plan is needed for that.
fn is_seen_valid(
    widths: Widths,
    judge: &Judge<'_>,
    owner: Option<Of>,
    word: &[Token],
    is_bare: bool,
) -> Result<bool, NoMemory>
    ensures { IfOk result (λ seen. IsTrue seen → JudgesWord widths (dtd_of judge.now)
        (option_map plain_of owner) (map plain_token word.now) is_bare (Some Valid)) }
{
    if !is_narrow(widths, judge, word) {
        return Ok(false);
    }
    match owner {
        Some(of) => is_valid_of(judge, of, word, is_bare),
        None => Ok(false),
    }
}

// What `judge_word` answers, by this plan of the judge's grammar.
fn judge_word_by(
    widths: Widths,
    judge: &Judge<'_>,
    plan: &Plan,
    owner: Option<Of>,
    word: &[Token],
    is_bare: bool,
) -> Result<Option<Verdict>, NoMemory>
    requires { IsPlan (dtd_of judge.now) plan.now }
    ensures { IfOk result (JudgesWord widths (dtd_of judge.now) (option_map plain_of owner)
        (map plain_token word.now) is_bare) }
{
    let planned = Judge::new(judge.alloc(), judge.grammar(), plan);
    judge_word(widths, &planned, owner, word, is_bare)
}

/// What `judge_word` answers, by the plan where there is one, and by the judge otherwise.
pub fn judge_word_planned(
    widths: Widths,
    judge: &Judge<'_>,
    plan: &Option<Plan>,
    owner: Option<Of>,
    word: &[Token],
    is_bare: bool,
) -> Result<Option<Verdict>, NoMemory>
    requires { IfSome plan.now (IsPlan (dtd_of judge.now)) }
    ensures { IfOk result (JudgesWord widths (dtd_of judge.now) (option_map plain_of owner)
        (map plain_token word.now) is_bare) }
{
    match plan {
        Some(plan) => judge_word_by(widths, judge, plan, owner, word, is_bare),
        None => judge_word(widths, judge, owner, word, is_bare),
    }
}

/// What `judge_word` answers, by a plan that may be laid out now: where there is none so far, and
/// the list isn't seen to be Valid.
pub fn plan_and_judge_word(
    widths: Widths,
    planning: Planning,
    judge: &Judge<'_>,
    plan: &mut Option<Plan>,
    owner: Option<Of>,
    word: &[Token],
    is_bare: bool,
) -> Result<Option<Verdict>, NoMemory>
    requires { IfSome plan.old (IsPlan (dtd_of judge.now)) }
    ensures judges { IfOk result (JudgesWord widths (dtd_of judge.now) (option_map plain_of owner)
        (map plain_token word.now) is_bare) }
    ensures planned { IfSome plan.new (IsPlan (dtd_of judge.now)) }
{
    if matches!(planning, Planning::Laid) || plan.is_some() {
        return judge_word_planned(widths, judge, plan, owner, word, is_bare);
    }
    if is_seen_valid(widths, judge, owner, word, is_bare)? {
        return Ok(Some(Verdict::Valid));
    }
    let laid = Plan::of(judge.alloc(), judge.grammar())?;
    let judged = judge_word_by(widths, judge, &laid, owner, word, is_bare);
    *plan = Some(laid);
    judged
}
