//! The rows of a list's word.

ghost use Rattle.std.specs.Prelude.{◌≡◌, IfOk, List, MatchOption, length, map};
ghost use Rattle.pv_model.specs.Plain.{PlainToken};
ghost use Rattle.pv_model.specs.PlainForms.{plain_token};
ghost use Rattle.pv_productive.specs.PlainForms.{dtd_of};
ghost use Rattle.pv_tree.specs.PlainForms.{forest};
ghost use Rattle.pv_tree.specs.Words.{word_of};
ghost use Rattle.pv_missing.specs.LiveWords.{AreProductiveTokens, IsLiveWord};
ghost use Rattle.pv_missing.specs.Widths.{FitsVerdict};
ghost use Rattle.pv_reach.specs.FurthestEnds.{AreReaches};
ghost use Rattle.pv_deny.specs.ToldRows.{HasManyValues, HasRows};

use crate::rows::{are_few, rows_of};
use crate::sites::told_sites;
use pv_chars::{List, NoMemory};
use pv_denial::Rows;
use pv_dtd::laws::proper_dtd_law;
use pv_missing::laws::words::live_follows_law;
use pv_missing::live_word;
use pv_model::Token;
use pv_productive::Grammar;
use pv_reach::laws::spans_within_law;
use pv_reach::{Judge, ReachError, Reaches, furthest_by};
use pv_tree::Node;
use std::alloc::Global;

/// The furthest places over a word that isn't too wide, by a judge of this grammar.
fn reaches_over(grammar: &Grammar, judge: &Judge<'_>, word: &[Token]) -> Result<Reaches, NoMemory>
    requires same { judge.now ≡ grammar.now }
    requires productive { AreProductiveTokens (dtd_of grammar.now) (map plain_token word.now) }
    requires narrow { FitsVerdict (dtd_of grammar.now) (length word.now) }
    ensures { IfOk result (λ reaches.
        AreReaches (dtd_of grammar.now) (map plain_token word.now) reaches) }
{
    match furthest_by(judge, word) {
        Ok(reaches) => Ok(reaches),
        Err(ReachError::TooWide) => unreachable!(),
        Err(ReachError::NoMemory) => Err(NoMemory),
    }
}

/// The rows of furthest places over a word; none where they would have too many values.
fn rows_by(
    alloc: Global,
    grammar: &Grammar,
    reaches: &Reaches,
    word: &[Token],
) -> Result<Option<Rows>, NoMemory>
    requires productive { AreProductiveTokens (dtd_of grammar.now) (map plain_token word.now) }
    requires reaches { AreReaches (dtd_of grammar.now) (map plain_token word.now) reaches.now }
    ensures { IfOk result (λ found. (w : List PlainToken) →
        IsLiveWord (dtd_of grammar.now) w (map plain_token word.now) →
        MatchOption found (HasManyValues (dtd_of grammar.now) w)
        (HasRows (dtd_of grammar.now) w)) }
{
    proper_dtd_law(grammar.dtd());
    spans_within_law();
    let sites = told_sites(alloc, grammar, reaches)?;
    if !are_few(sites.len() as u64, word.len() as u64) {
        return Ok(None);
    }
    let rows = rows_of(alloc, reaches, &sites, word.len())?;
    Ok(Some(List::of(rows)))
}

/// The rows of furthest places over the live word of some kids, which isn't too wide, by a judge of
/// this grammar; none where they would have too many values.
pub fn word_rows(
    alloc: Global,
    grammar: &Grammar,
    judge: &Judge<'_>,
    kids: &[Node],
) -> Result<Option<Rows>, NoMemory>
    requires same { judge.now ≡ grammar.now }
    requires narrow { FitsVerdict (dtd_of grammar.now)
        (length (word_of (dtd_of grammar.now) (forest kids.now))) }
    ensures { IfOk result (λ found. MatchOption found
        (HasManyValues (dtd_of grammar.now) (word_of (dtd_of grammar.now) (forest kids.now)))
        (HasRows (dtd_of grammar.now) (word_of (dtd_of grammar.now) (forest kids.now)))) }
{
    live_follows_law();
    let live = live_word(alloc, grammar, kids)?;
    let word = live.as_slice();
    let reaches = reaches_over(grammar, judge, word)?;
    rows_by(alloc, grammar, &reaches, word)
}
