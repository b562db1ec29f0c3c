//! The verdict of a word by what is kept of it.

ghost use Rattle.std.specs.Prelude.{◌≡◌, ◌≢◌, ◌↔◌, Bool, IfOk, IfSome, IsTrue, Some, length, map};
ghost use Rattle.std.specs.Option.{option_copied};
ghost use Rattle.pv_model.specs.Models.{Allows};
ghost use Rattle.pv_model.specs.Plain.{empty};
ghost use Rattle.pv_model.specs.PlainForms.{plain_model, plain_token};
ghost use Rattle.pv_dtd.specs.Plain.{declared};
ghost use Rattle.pv_rules.specs.SiteDerivations.{DerivesAt};
ghost use Rattle.pv_rules.specs.Sites.{content_site};
ghost use Rattle.pv_productive.specs.PlainForms.{dtd_of};
ghost use Rattle.pv_missing.specs.LiveWords.{AreProductiveTokens};
ghost use Rattle.pv_missing.specs.Widths.{FitsVerdict};
ghost use Rattle.pv_missing.specs.declared.owners.Of.TheVariants.{Elem as element};
ghost use Rattle.pv_missing.specs.WordVerdicts.{IsVerdictByWord};
ghost use Rattle.pv_verdicts.specs.TokenCounts.{AreCounts};
ghost use Rattle.pv_verdicts.specs.Owners.{IsOpenContent};

use crate::counts::Counts;
use pv_chars::NoMemory;
use pv_missing::Of;
use pv_model::{ContentModel, LaidModel, NameId, Token};
use pv_productive::Grammar;
use pv_reach::{Judge, content_derives};
use pv_tree::Verdict;

/// Whether elements of this model may have kids.
fn may_have_kids(model: &LaidModel) -> bool
    ensures { IsTrue result → plain_model model.now ≢ empty }
{
    match model.model() {
        ContentModel::Empty => false,
        ContentModel::Any => true,
        ContentModel::Mixed(_) => true,
        ContentModel::Children(_) => true,
    }
}

/// What elements of a name may hold.
#[derive(Drop)]
pub struct Content<'a> {
    pub id: NameId,
    pub model: &'a LaidModel,
}

/// The content model of a name that is productive, where elements of this name may have kids.
fn open_model(grammar: &Grammar, id: NameId) -> Option<&LaidModel>
    ensures { IfSome (option_copied result) (λ model.
        IsOpenContent (dtd_of grammar.now) id.0 (plain_model model)) }
{
    if id.0 >= grammar.dtd().names() || !grammar.is_productive(id) {
        return None;
    }
    let model = grammar.dtd().laid_model_of(id)?;
    if may_have_kids(model) {
        Some(model)
    } else {
        None
    }
}

/// The content of a list's owner, if that is an element which may have kids.
pub(crate) fn content_of<'a>(grammar: &'a Grammar, owner: Option<Of>) -> Option<Content<'a>>
    ensures { IfSome result (λ content. (owner ≡ Some (element content.id)) ×
        IsOpenContent (dtd_of grammar.now) content.id.0 (plain_model content.model.now)) }
{
    match owner {
        Some(Of::Elem(id)) => {
            let model = open_model(grammar, id)?;
            Some(Content { id, model })
        }
        Some(Of::Root(_)) => None,
        None => None,
    }
}

/// Whether the content of a name derives a word of productive names that has these counts.
fn derives(judge: &Judge<'_>, id: NameId, counts: &Counts, word: &[Token]) -> Result<bool, NoMemory>
    requires fits { FitsVerdict (dtd_of judge.now) (length word.now) }
    requires productive { AreProductiveTokens (dtd_of judge.now) (map plain_token word.now) }
    requires counts { AreCounts (dtd_of judge.now) id.0 (map plain_token word.now) counts.now }
    ensures { IfOk result (λ b. IsTrue b ↔ DerivesAt (dtd_of judge.now)
        (map plain_token word.now) (content_site id.0) 0 (length word.now)) }
{
    match counts.untaken {
        Some(untaken) => Ok(untaken == 0),
        None => content_derives(judge, id, word),
    }
}

/// The verdict of the list of an element that may have kids, by the counts of its word, and by
/// whether its content model allows the word.
pub(crate) fn verdict_by(
    judge: &Judge<'_>,
    content: &Content<'_>,
    counts: &Counts,
    is_allowed: bool,
    word: &[Token],
) -> Result<Verdict, NoMemory>
    requires fits { FitsVerdict (dtd_of judge.now) (length word.now) }
    requires content { IsOpenContent (dtd_of judge.now) content.now.id.0
        (plain_model content.now.model.now) }
    requires counts { AreCounts (dtd_of judge.now) content.now.id.0 (map plain_token word.now)
        counts.now }
    requires allowed { IsTrue is_allowed ↔ Allows (declared (dtd_of judge.now))
        (plain_model content.now.model.now) (map plain_token word.now) }
    ensures { IfOk result (λ verdict. (none : Bool) → IsVerdictByWord (dtd_of judge.now)
        (Some (content_site content.now.id.0)) (map plain_token word.now) none verdict) }
{
    if counts.unproductive > 0 {
        return Ok(Verdict::Impossible);
    }
    if is_allowed {
        return Ok(Verdict::Valid);
    }
    if derives(judge, content.id, counts, word)? {
        Ok(Verdict::Possible)
    } else {
        Ok(Verdict::Impossible)
    }
}
