//! The verdict of a list, by a chart of its live word.

ghost use Rattle.std.specs.Prelude.{◌≡◌, ◌↔◌, ◌<◌, ◌^◌, IfOk, IsTrue, Some};
ghost use Rattle.std.specs.Prelude.{length, map};
ghost use Rattle.std.specs.Option.{option_copied, option_map};
ghost use Rattle.pv_model.specs.Plain.{empty};
ghost use Rattle.pv_model.specs.PlainForms.{plain_model, plain_token};
ghost use Rattle.pv_dtd.specs.Plain.{model_of};
ghost use Rattle.pv_dtd.specs.Productive.{IsProductive};
ghost use Rattle.pv_rules.specs.Sites.{HasSite, content_site};
ghost use Rattle.pv_productive.specs.PlainForms.{dtd_of};
ghost use Rattle.pv_missing.specs.LiveWords.{AreProductiveTokens, IsLiveWord};
ghost use Rattle.pv_missing.specs.PlainForms.{plain_of};
ghost use Rattle.pv_missing.specs.Widths.{FitsWeights};
ghost use Rattle.pv_missing.specs.WordVerdicts.{IsPossibleAt, IsValidAt};
ghost use Rattle.pv_missing.specs.WordVerdicts.{IsVerdictByWord, MayHaveKids};

use crate::membership::derives;
use crate::owners::{ListOwner, is_known_owner};
use pv_chars::NoMemory;
use pv_layout::lay_out;
use pv_missing::Of;
use pv_model::{ContentModel, LaidModel, NameId, Token};
use pv_productive::Grammar;
use pv_tree::Verdict;
use std::alloc::Global;

/// The content model of a name, where it is declared.
fn model_in(grammar: &Grammar, id: NameId) -> Option<&LaidModel>
    ensures { option_map plain_model (option_copied result) ≡ model_of (dtd_of grammar.now) id.0 }
{
    if id.0 >= grammar.dtd().names() {
        return None;
    }
    grammar.dtd().laid_model_of(id)
}

/// Whether a name is productive.
fn is_productive(grammar: &Grammar, id: NameId) -> bool
    ensures { IsTrue result ↔ IsProductive (dtd_of grammar.now) id.0 }
{
    id.0 < grammar.dtd().names() && grammar.is_productive(id)
}

/// Whether elements of a name are declared EMPTY.
fn is_empty_element(grammar: &Grammar, id: NameId) -> bool
    ensures { IsTrue result ↔ (model_of (dtd_of grammar.now) id.0 ≡ Some empty) }
{
    let Some(model) = model_in(grammar, id) else {
        return false;
    };
    match model.model() {
        ContentModel::Empty => true,
        ContentModel::Any => false,
        ContentModel::Mixed(_) => false,
        ContentModel::Children(_) => false,
    }
}

/// Whether a list of this owner may have kids, or has none of any kind.
fn may_have_kids(grammar: &Grammar, of: Of, is_bare: bool) -> bool
    ensures { IsTrue result ↔ MayHaveKids (dtd_of grammar.now) (plain_of of) is_bare }
{
    match of {
        Of::Root(_) => true,
        Of::Elem(id) => {
            is_productive(grammar, id) && (is_bare || !is_empty_element(grammar, id))
        }
    }
}

/// Whether kids of this word are what an element of this name is to hold, EMPTY elements with kids
/// of any kind aside.
fn fits_element(
    alloc: Global,
    grammar: &Grammar,
    id: NameId,
    word: &[Token],
    is_bare: bool,
) -> Result<bool, NoMemory>
    requires kids { model_of (dtd_of grammar.now) id.0 ≡ Some empty → IsTrue is_bare }
    ensures { IfOk result (λ b. IsTrue b ↔ IsValidAt (dtd_of grammar.now) (content_site id.0)
        (map plain_token word.now) is_bare) }
{
    let Some(model) = model_in(grammar, id) else {
        return Ok(false);
    };
    model
        .allows(alloc, grammar.dtd().count(), word)
        .map_err(|_| NoMemory)
}

/// Whether a list of this owner and this word, which may have the kids that it has, is valid by
/// itself.
fn is_valid(
    alloc: Global,
    grammar: &Grammar,
    of: Of,
    word: &[Token],
    is_bare: bool,
) -> Result<bool, NoMemory>
    requires kids { MayHaveKids (dtd_of grammar.now) (plain_of of) is_bare }
    ensures { IfOk result (λ b. IsTrue b ↔ IsValidAt (dtd_of grammar.now) (plain_of of)
        (map plain_token word.now) is_bare) }
{
    match of {
        Of::Root(id) => Ok(word.len() == 1 && word[0] == Token::Name(id)),
        Of::Elem(id) => fits_element(alloc, grammar, id, word, is_bare),
    }
}

/// Whether an owner that the grammar has may hold a list of this live word.
pub(crate) fn is_possible(
    alloc: Global,
    grammar: &Grammar,
    of: Of,
    live: &[Token],
) -> Result<bool, NoMemory>
    requires known { HasSite (dtd_of grammar.now) (plain_of of) }
    requires productive { AreProductiveTokens (dtd_of grammar.now) (map plain_token live.now) }
    requires fits { FitsWeights (dtd_of grammar.now) (length live.now) }
    ensures { IfOk result (λ b. IsTrue b ↔ IsPossibleAt (dtd_of grammar.now) (plain_of of)
        (map plain_token live.now)) }
{
    let layout = lay_out(alloc, grammar)?;
    let owner = ListOwner {
        layout: &layout,
        of,
    };
    derives(alloc, &owner, live)
}

/// The verdict of a list by its owner, its word with its live word, and whether it has no kids of
/// any kind.
pub(crate) fn judge(
    alloc: Global,
    grammar: &Grammar,
    of: Of,
    word: &[Token],
    live: &[Token],
    is_bare: bool,
) -> Result<Verdict, NoMemory>
    requires live { IsLiveWord (dtd_of grammar.now) (map plain_token word.now)
        (map plain_token live.now) }
    requires fits { FitsWeights (dtd_of grammar.now) (length live.now) }
    ensures { IfOk result (λ verdict. IsVerdictByWord (dtd_of grammar.now) (Some (plain_of of))
        (map plain_token word.now) is_bare verdict) }
{
    if !is_known_owner(grammar, of) {
        return Ok(Verdict::Impossible);
    }
    if !may_have_kids(grammar, of, is_bare) {
        return Ok(Verdict::Impossible);
    }
    if !is_possible(alloc, grammar, of, live)? {
        return Ok(Verdict::Impossible);
    }
    if is_valid(alloc, grammar, of, word, is_bare)? {
        Ok(Verdict::Valid)
    } else {
        Ok(Verdict::Possible)
    }
}
