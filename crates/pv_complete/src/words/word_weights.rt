//! A word with the weights of all sites over its spans.

ghost use Rattle.std.specs.Prelude.{map};
ghost use Rattle.pv_model.specs.PlainForms.{plain_token};
ghost use Rattle.pv_productive.specs.PlainForms.{dtd_of};
ghost use Rattle.pv_span.specs.Weights.{AreWeights};

use pv_model::Token;
use pv_productive::Grammar;
use pv_span::Spans;

/// A word with the weights of all sites of a grammar over its spans.
#[derive(Clone, Copy)]
pub struct WordWeights<'a> {
    pub grammar: &'a Grammar,
    pub word: &'a [Token],
    pub spans: &'a Spans<'a>,
    pub ghost weights: { ∥ AreWeights (dtd_of grammar.now) (map plain_token word.now)
        spans.now ∥₁ },
}
