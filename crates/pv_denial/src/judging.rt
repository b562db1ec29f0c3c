//! Judges denials.

ghost use Rattle.std.specs.Prelude.{◌≡◌, ◌≢◌, ◌<◌, ◌^◌, IfErr, IfOk, List, ℕ, length, map};
ghost use Rattle.std.specs.Option.{option_map};
ghost use Rattle.pv_model.specs.PlainForms.{plain_token};
ghost use Rattle.pv_rules.specs.PlainForms.{plain_site};
ghost use Rattle.pv_rules.specs.Rules.{IsKnownWord};
ghost use Rattle.pv_productive.specs.PlainForms.{dtd_of};
ghost use Rattle.pv_tree.specs.Lists.{Listed};
ghost use Rattle.pv_tree.specs.PlainDocs.{plain_doc};
ghost use Rattle.pv_tree.specs.declared.nodes.Mark.{Mark as PlainMark};
ghost use Rattle.pv_missing.specs.PlainForms.{plain_of};
ghost use Rattle.pv_missing.specs.ListWeights.{site_of};
ghost use Rattle.pv_missing.specs.Widths.{IsListForVerdict};
ghost use Rattle.pv_denial.specs.Judgements.{IsDenialJudged, IsTooWideFor, JudgesAt, JudgesRows};
ghost use Rattle.pv_denial.specs.Places.{IsPlaceOf};
ghost use Rattle.pv_denial.specs.declared.denials.Cause.TheVariants as cause;
ghost use Rattle.pv_denial.specs.declared.errors.JudgeError.TheVariants.{TooWide as too_wide};

use crate::causes::holds;
use crate::denials::{Cause, Denial, Flaw, Judged, Row};
use crate::errors::JudgeError;
use crate::listing::barrier_of;
use crate::names::most_of_names;
use crate::places::{OwnedList, place_at};
use crate::rules::all_hold;
use pv_missing::laws::lists::known_word_law;
use pv_missing::laws::words::{live_follows_law, one_live_word_law};
use pv_missing::{Of, element_owner, is_narrow, live_word, root_owner};
use pv_model::Token;
use pv_productive::Grammar;
use pv_rules::Site;
use pv_tree::{Doc, Mark};
use std::alloc::{AllocError, Global};

/// The owner of the list at a place, where the DTD has its name.
fn owner_of(grammar: &Grammar, place: &OwnedList<'_>) -> Option<Of>
    ensures { (root : List ℕ) (list : Listed PlainMark) → IsPlaceOf root list place.now →
        site_of (dtd_of grammar.now) root list.owner ≡ option_map plain_of result }
{
    if place.of_document {
        root_owner(grammar.dtd(), place.name)
    } else {
        element_owner(grammar.dtd(), place.name)
    }
}

/// The site of what the owner's kids are to be.
fn owner_site(owner: Of) -> Site
    ensures { plain_site result ≡ plain_of owner }
{
    match owner {
        Of::Root(id) => Site::Name(id),
        Of::Elem(id) => Site::Content(id),
    }
}

/// Judges rows for a word at the site of an owner.
fn judge_rows(
    alloc: Global,
    grammar: &Grammar,
    owner: Of,
    word: &[Token],
    rows: &[Row],
) -> Result<Judged, AllocError>
    requires short { length word.now < 2 ^ 62 }
    requires known { IsKnownWord (dtd_of grammar.now) (map plain_token word.now) }
    ensures { IfOk result (JudgesRows (dtd_of grammar.now) (plain_of owner)
        (map plain_token word.now) rows.now) }
{
    let Some(barrier) = barrier_of(alloc, grammar, rows, word.len())? else {
        return Ok(Judged::Rejected(Flaw::Table));
    };
    let most = most_of_names(alloc, grammar, &barrier, word.len())?;
    if !all_hold(grammar, &barrier, &most, word) {
        return Ok(Judged::Rejected(Flaw::Table));
    }
    if barrier.past_at(owner_site(owner), 0) == word.len() as u64 + 1 {
        return Ok(Judged::Rejected(Flaw::Reached));
    }
    Ok(Judged::Denied)
}

/// Judges a denial by the word of its list.
fn judge_word(
    alloc: Global,
    grammar: &Grammar,
    place: &OwnedList<'_>,
    denial: &Denial,
) -> Result<Judged, JudgeError>
    requires { denial.now.cause ≡ cause.Word }
    ensures judged { IfOk result (λ judged. (root : List ℕ) (list : Listed PlainMark) →
        IsPlaceOf root list place.now → JudgesAt (dtd_of grammar.now) root denial.now list judged) }
    ensures wide { IfErr result (λ e. e ≡ too_wide → (root : List ℕ) (list : Listed PlainMark) →
        IsPlaceOf root list place.now → ¬ IsListForVerdict (dtd_of grammar.now) list) }
{
    known_word_law::<Mark>();
    live_follows_law();
    one_live_word_law();
    let live = live_word(alloc, grammar, place.kids)?;
    let word = live.as_slice();
    if !is_narrow(grammar.dtd(), word.len() as u64) {
        return Err(JudgeError::TooWide);
    }
    let Some(owner) = owner_of(grammar, place) else {
        return Ok(Judged::Rejected(Flaw::Cause));
    };
    let judged = judge_rows(alloc, grammar, owner, word, denial.rows.as_slice())?;
    Ok(judged)
}

/// Judges a denial that has another cause.
fn judge_cause(grammar: &Grammar, place: &OwnedList<'_>, denial: &Denial) -> Judged
    requires { denial.now.cause ≢ cause.Word }
    ensures { (root : List ℕ) (list : Listed PlainMark) → IsPlaceOf root list place.now →
        JudgesAt (dtd_of grammar.now) root denial.now list result }
{
    if holds(grammar, place, denial.cause) && denial.rows.as_slice().is_empty() {
        Judged::Denied
    } else {
        Judged::Rejected(Flaw::Cause)
    }
}

/// Whether a denial shows that no insertions make a document valid.
///
/// The list comes first, then its width, the cause, the rows and what they reach. The time is about
/// linear in the values of the rows; the memory is eight bytes for each site of the DTD and for
/// each place of the list's word, and that word.
pub fn judge(
    alloc: Global,
    grammar: &Grammar,
    root: &[u8],
    doc: &Doc,
    denial: &Denial,
) -> Result<Judged, JudgeError>
    ensures judged { IfOk result (IsDenialJudged (dtd_of grammar.now) root.now (plain_doc doc.now)
        denial.now) }
    ensures wide { IfErr result (λ e. e ≡ too_wide →
        IsTooWideFor (dtd_of grammar.now) (plain_doc doc.now) denial.now) }
{
    let Some(place) = place_at(root, doc, &denial.path) else {
        return Ok(Judged::Rejected(Flaw::List));
    };
    if denial.cause == Cause::Word {
        judge_word(alloc, grammar, &place, denial)
    } else {
        Ok(judge_cause(grammar, &place, denial))
    }
}
