//! A site of the grammar over a span of a word.

ghost use Rattle.std.specs.Prelude.{◌≡◌, ◌≤◌, ◌<◌};
ghost use Rattle.pv_rules.specs.Derivations.{heaviest};
ghost use Rattle.pv_rules.specs.PlainForms.{plain_site};
ghost use Rattle.pv_rules.specs.Rules.{over};
ghost use Rattle.pv_rules.specs.Sites.{HasSite};
ghost use Rattle.pv_productive.specs.PlainForms.{dtd_of};
ghost use Rattle.pv_span.specs.Weights.{tokens_of, weight_of};

use crate::words::word_weights::WordWeights;
use pv_rules::Site;

/// A site of the grammar over a span of the word, and what it weighs there, at most 1,000,000.
#[derive(Clone, Copy)]
pub struct Spot<'a> {
    pub weights: WordWeights<'a>,
    pub site: Site,
    pub from: u32,
    pub to: u32,
    pub weight: u32,
    pub ghost has: { ∥ HasSite (dtd_of weights.grammar.now) (plain_site site) ∥₁ },
    pub ghost span: { (from ≤ to) × (to ≤ tokens_of weights.spans.now) },
    pub ghost weighs: { weight ≡
        weight_of weights.spans.now (over (plain_site site) from to) },
    pub ghost light: { weight < heaviest },
}

impl Spot<'_> {
    ghost use Rattle.std.specs.Prelude.{◌≡◌, ◌≤◌, ◌↔◌, IsTrue};

    /// What a site weighs over the span from one place up to another.
    pub fn weight_over(&self, site: Site, from: u32, to: u32) -> u32
        requires { (from ≤ to) × (to ≤ self.now.to) }
        ensures { result ≡ weight_of self.now.weights.spans.now (over (plain_site site) from to) }
    {
        self.weights.spans.at(site, from, to)
    }

    /// Whether another site weighs as much over this span.
    pub fn weighs_as(&self, other: Site) -> bool
        ensures { IsTrue result ↔
            (self.now.weight ≡ weight_of self.now.weights.spans.now
            (over (plain_site other) self.now.from self.now.to)) }
    {
        self.weight_over(other, self.from, self.to) == self.weight
    }
}
