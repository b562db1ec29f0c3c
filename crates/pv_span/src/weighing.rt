//! The weights of all sites over all spans of a word.

ghost use Rattle.std.specs.Prelude.{◌≡◌, ◌↔◌, ◌<◌, ◌≤◌, ◌^◌, IfErr, IfOk, IsTrue, length, map};
ghost use Rattle.pv_model.specs.PlainForms.{plain_token};
ghost use Rattle.pv_rules.specs.PlainForms.{plain_site};
ghost use Rattle.pv_rules.specs.Rules.{over};
ghost use Rattle.pv_productive.specs.PlainForms.{dtd_of};
ghost use Rattle.pv_missing.specs.LiveWords.{AreProductiveTokens};
ghost use Rattle.pv_missing.specs.Widths.{FitsWeights};
ghost use Rattle.pv_span.specs.Weights.{AreValues, AreWeights, site_value, tokens_of, weight_of};
ghost use Rattle.pv_span.specs.declared.errors.SpanError.TheVariants.{TooWide as too_wide};

use crate::charts::Chart;
use crate::errors::SpanError;
use crate::fill::chart_of;
use pv_chars::NoMemory;
use pv_layout::{ColumnLayout, SiteColumns};
use pv_missing::is_narrow_for_weights;
use pv_model::Token;
use pv_productive::Grammar;
use pv_rules::{HEAVIEST, Site};
use std::alloc::Global;

/// The weights of all sites over all spans of a word.
#[derive(Debug, Drop)]
pub struct Spans<'a> {
    pub(crate) chart: Chart,
    pub(crate) sites: SiteColumns<'a>,
}

impl Spans<'_> {
    /// The weight of a derivation, cut, or `NO_SIZE` where the site derives nothing over the span.
    pub(crate) fn value(&self, site: Site, from: u32, to: u32) -> u32
        requires { (from ≤ to) × (to ≤ tokens_of self.now) }
        ensures { result ≡ site_value self.now (over (plain_site site) from to) }
    {
        self.chart.at(self.sites.column(site), from, to)
    }

    /// The weight of a site over a span: the least number of elements missing there, or 1,000,001
    /// where that is more than 1,000,000 or the site can't stand for the span.
    pub fn at(&self, site: Site, from: u32, to: u32) -> u32
        requires { (from ≤ to) × (to ≤ tokens_of self.now) }
        ensures { result ≡ weight_of self.now (over (plain_site site) from to) }
    {
        self.value(site, from, to).min(HEAVIEST)
    }
}

/// Whether a word isn't too wide for weights.
pub(crate) fn is_narrow(grammar: &Grammar, tokens: usize) -> bool
    ensures { IsTrue result ↔ FitsWeights (dtd_of grammar.now) tokens }
{
    is_narrow_for_weights(grammar.dtd(), tokens as u64)
}

/// The values of all sites over all spans of a word that isn't too wide. Only a DTD without names
/// lets a word have 8,192 tokens.
pub(crate) fn spans_by<'a>(
    alloc: Global,
    layout: &'a ColumnLayout<'_>,
    word: &[Token],
) -> Result<Spans<'a>, NoMemory>
    requires fits { FitsWeights (dtd_of layout.now.grammar.now) (length word.now) }
    ensures weights { IfOk result (λ spans. AreWeights (dtd_of layout.now.grammar.now)
        (map plain_token word.now) spans) }
    ensures values { IfOk result (λ spans. AreValues (dtd_of layout.now.grammar.now)
        (map plain_token word.now) spans) }
{
    let names = layout.grammar.dtd().names();
    let chart = chart_of(alloc, &layout.forms, &layout.mentions, names, word)?;
    Ok(Spans {
        chart,
        sites: SiteColumns::Lent(&layout.sites),
    })
}

/// The weights of all sites over all spans of a word whose names are productive, under a grammar
/// that is laid out.
///
/// `TooWide` is asked first, and takes no memory. The chart takes four bytes for each column and
/// each span of the word; sites that stand for the same words share a column.
pub fn weights_by<'a>(
    alloc: Global,
    layout: &'a ColumnLayout<'_>,
    word: &[Token],
) -> Result<Spans<'a>, SpanError>
    requires productive { AreProductiveTokens (dtd_of layout.now.grammar.now)
        (map plain_token word.now) }
    ensures weights { IfOk result (λ spans. AreWeights (dtd_of layout.now.grammar.now)
        (map plain_token word.now) spans) }
    ensures fits { IfOk result (λ _. FitsWeights (dtd_of layout.now.grammar.now)
        (length word.now)) }
    ensures wide { IfErr result (λ e. e ≡ too_wide →
        ¬ FitsWeights (dtd_of layout.now.grammar.now) (length word.now)) }
{
    if !is_narrow(layout.grammar, word.len()) {
        return Err(SpanError::TooWide);
    }
    let spans = spans_by(alloc, layout, word)?;
    Ok(spans)
}
