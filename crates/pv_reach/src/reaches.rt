//! The furthest places that the sites of a grammar reach over a word.

ghost use Rattle.std.specs.Prelude.{◌≡◌, ◌<◌, ◌^◌, IfErr, IfOk, IfSome, length, map};
ghost use Rattle.pv_model.specs.PlainForms.{plain_token};
ghost use Rattle.pv_productive.specs.PlainForms.{dtd_of};
ghost use Rattle.pv_missing.specs.LiveWords.{AreProductiveTokens};
ghost use Rattle.pv_missing.specs.Widths.{FitsVerdict, columns_of};
ghost use Rattle.pv_reach.specs.FurthestEnds.{AreReaches};
ghost use Rattle.pv_reach.specs.Plans.{IsPlan};
ghost use Rattle.pv_reach.specs.declared.errors.ReachError.TheVariants.{TooWide as too_wide};

use crate::errors::ReachError;
use crate::judge::Judge;
use crate::plan::Plan;
use crate::tables::ends::Ends;
use crate::tables::rests::{rest_past, rests_of};
use crate::tables::table::fill;
use pv_missing::is_narrow;
use pv_model::Token;
use pv_productive::Grammar;
use pv_rules::Site;
use std::alloc::{AllocError, Global};

/// For each site of a grammar and each place of a word the furthest place to which the site has a
/// derivation from there.
#[derive(Debug, Drop)]
pub struct Reaches {
    pub(crate) ends: Ends,
    /// For each part that is a member of a sequence, and each place, one past the furthest place of
    /// the members from that one on, or 0.
    pub(crate) rests: Vec<u32>,
}

impl Reaches {
    ghost use Rattle.std.specs.Prelude.{◌≡◌};
    ghost use Rattle.pv_rules.specs.PlainForms.{plain_site};
    ghost use Rattle.pv_reach.specs.FurthestEnds.{end_told, past_of};

    /// One past the furthest place of a site, or 0.
    fn past(&self, site: Site, from: u32) -> u32
        ensures { result ≡ past_of self.now (plain_site site) from }
    {
        match site {
            Site::Name(id) => {
                let kept = self.ends.kept_past(id, from);
                kept.max(self.ends.content_past(id, from))
            }
            Site::Content(id) => self.ends.content_past(id, from),
            Site::Part(number) => self.ends.part_past(number, from),
            Site::Rest(number) => rest_past(&self.ends, &self.rests, number, from),
        }
    }

    /// The greatest place to which a site has a derivation from a place of the word, if it has any.
    ///
    /// The site is one of the grammar, and the place at most the number of tokens.
    pub fn at(&self, site: Site, from: u32) -> Option<u32>
        ensures { result ≡ end_told self.now (plain_site site) from }
    {
        match self.past(site, from) {
            0 => None,
            past => Some(past - 1),
        }
    }
}

/// By the plan of a grammar, for a word that isn't too wide.
fn reaches_by(
    alloc: Global,
    grammar: &Grammar,
    plan: &Plan,
    word: &[Token],
) -> Result<Reaches, AllocError>
    requires short { length word.now < 2 ^ 26 }
    requires plan { IsPlan (dtd_of grammar.now) plan.now }
    requires productive { AreProductiveTokens (dtd_of grammar.now) (map plain_token word.now) }
    ensures { IfOk result (λ reaches.
        AreReaches (dtd_of grammar.now) (map plain_token word.now) reaches) }
{
    let table = fill(alloc, &[], &plan.rules, word, plan.width)?;
    let heads = Vec::from_slice(alloc, &plan.heads)?;
    let ends = Ends {
        word: Vec::from_slice(alloc, word)?,
        heads,
        table,
        width: plan.width,
        names: grammar.dtd().names(),
    };
    let rests = rests_of(alloc, grammar, &ends)?;
    Ok(Reaches { ends, rests })
}

/// Of a grammar without names, which has no sites.
fn no_reaches(alloc: Global, grammar: &Grammar, word: &[Token]) -> Reaches
    requires { columns_of (dtd_of grammar.now) ≡ 0 }
    ensures { AreReaches (dtd_of grammar.now) (map plain_token word.now) result }
{
    let ends = Ends {
        word: Vec::new(alloc),
        heads: Vec::new(alloc),
        table: Vec::new(alloc),
        width: 1,
        names: 0,
    };
    Reaches {
        ends,
        rests: Vec::new(alloc),
    }
}

/// By the plan of a grammar, or by one that is made for this word.
pub(crate) fn furthest_over(
    alloc: Global,
    grammar: &Grammar,
    plan: Option<&Plan>,
    word: &[Token],
) -> Result<Reaches, ReachError>
    requires productive { AreProductiveTokens (dtd_of grammar.now) (map plain_token word.now) }
    requires plan { IfSome plan (λ plan. IsPlan (dtd_of grammar.now) plan.now) }
    ensures reaches { IfOk result (λ reaches.
        AreReaches (dtd_of grammar.now) (map plain_token word.now) reaches) }
    ensures fits { IfOk result (λ _. FitsVerdict (dtd_of grammar.now) (length word.now)) }
    ensures wide { IfErr result (λ e. e ≡ too_wide →
        ¬ FitsVerdict (dtd_of grammar.now) (length word.now)) }
{
    if !is_narrow(grammar.dtd(), word.len() as u64) {
        return Err(ReachError::TooWide);
    }
    if grammar.dtd().columns() == 0 {
        return Ok(no_reaches(alloc, grammar, word));
    }
    if let Some(plan) = plan {
        let reaches = reaches_by(alloc, grammar, plan, word)?;
        return Ok(reaches);
    }
    let plan = Plan::of(alloc, grammar)?;
    let reaches = reaches_by(alloc, grammar, &plan, word)?;
    Ok(reaches)
}

/// For each site and each place of a word of productive names the furthest place to which the site
/// has a derivation, as `furthest` finds them, by the plan of a grammar where its rules are laid
/// out.
pub fn furthest_by(judge: &Judge<'_>, word: &[Token]) -> Result<Reaches, ReachError>
    requires { AreProductiveTokens (dtd_of judge.now) (map plain_token word.now) }
    ensures reaches { IfOk result (λ reaches.
        AreReaches (dtd_of judge.now) (map plain_token word.now) reaches) }
    ensures fits { IfOk result (λ _. FitsVerdict (dtd_of judge.now) (length word.now)) }
    ensures wide { IfErr result (λ e. e ≡ too_wide →
        ¬ FitsVerdict (dtd_of judge.now) (length word.now)) }
{
    furthest_over(judge.alloc(), judge.grammar(), judge.plan(), word)
}
