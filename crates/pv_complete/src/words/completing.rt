//! A least completion of one list.

ghost use Rattle.std.specs.Prelude.{◌≡◌, ◌<◌, ℕ, IfErr, IfOk, MatchOption, OnOk, length, map};
ghost use Rattle.pv_model.specs.PlainForms.{plain_token};
ghost use Rattle.pv_rules.specs.Derivations.{IsWeight, heaviest};
ghost use Rattle.pv_rules.specs.Rules.{Rule};
ghost use Rattle.pv_productive.specs.PlainForms.{dtd_of};
ghost use Rattle.pv_missing.specs.LiveWords.{AreProductiveTokens};
ghost use Rattle.pv_missing.specs.PlainForms.{plain_of};
ghost use Rattle.pv_missing.specs.ListWeights.{whole};
ghost use Rattle.pv_missing.specs.Widths.{FitsWeights};
ghost use Rattle.pv_span.specs.Weights.{AreWeights, weight_of};
ghost use Rattle.pv_span.specs.declared.errors.SpanError.TheVariants.{TooWide as too_wide};
ghost use Rattle.pv_write.specs.PieceForms.{plain_pieces};
ghost use Rattle.pv_complete.specs.Pieces.{WritesAt};

use crate::words::spelling::pieces_of;
use crate::words::spot::Spot;
use crate::words::word_weights::WordWeights;
use pv_chars::NoMemory;
use pv_model::Token;
use pv_rules::HEAVIEST;
use pv_span::{ListOwner, SpanError, Spans, weights_by};
use pv_write::Piece;
use std::alloc::Global;

/// What a whole word weighs at its owner's site, by the weights of all sites over its spans.
pub fn weight_by(owner: &ListOwner<'_>, word: &[Token], spans: &Spans<'_>) -> u32
    requires { AreWeights (dtd_of owner.now.layout.now.grammar.now) (map plain_token word.now)
        spans.now }
    ensures told { result ≡ weight_of spans.now
        (whole (plain_of owner.now.of) (map plain_token word.now)) }
    ensures weight { IsWeight (Rule (dtd_of owner.now.layout.now.grammar.now)
        (map plain_token word.now))
        (whole (plain_of owner.now.of) (map plain_token word.now)) result }
{
    spans.at(owner.site(), 0, word.len() as u32)
}

/// The pieces of a completion of a word by its owner, with as many new elements as it weighs: at
/// most 1,000,000. Each piece is read off the weights of all sites over its spans.
pub fn spell(
    alloc: Global,
    owner: &ListOwner<'_>,
    word: &[Token],
    spans: &Spans<'_>,
    weight: u32,
) -> Result<Vec<Piece>, NoMemory>
    requires weights { AreWeights (dtd_of owner.now.layout.now.grammar.now)
        (map plain_token word.now) spans.now }
    requires told { weight ≡ weight_of spans.now
        (whole (plain_of owner.now.of) (map plain_token word.now)) }
    requires light { weight < heaviest }
    ensures { IfOk result (λ pieces. WritesAt (dtd_of owner.now.layout.now.grammar.now)
        (plain_of owner.now.of) weight (map plain_token word.now) (plain_pieces pieces.items)) }
{
    let site = owner.site();
    let spot = Spot {
        weights: WordWeights {
            grammar: owner.layout.grammar,
            word,
            spans,
        },
        site,
        from: 0,
        to: word.len() as u32,
        weight,
    };
    pieces_of(alloc, &spot)
}

/// The pieces of a completion of a word of productive names, by its owner, with as many new
/// elements as the word weighs; `None` where that is more than 1,000,000, or the word has no
/// completion.
///
/// `TooWide` is asked first. Each piece is read off the weights of all sites over all spans of the
/// word.
pub(crate) fn list_pieces(
    alloc: Global,
    owner: &ListOwner<'_>,
    word: &[Token],
) -> Result<Option<Vec<Piece>>, SpanError>
    requires { AreProductiveTokens (dtd_of owner.now.layout.now.grammar.now)
        (map plain_token word.now) }
    ensures pieces { IfOk result (λ found. MatchOption found
        (IsWeight (Rule (dtd_of owner.now.layout.now.grammar.now) (map plain_token word.now))
        (whole (plain_of owner.now.of) (map plain_token word.now)) heaviest)
        (λ pieces. (n : ℕ) ×
        IsWeight (Rule (dtd_of owner.now.layout.now.grammar.now) (map plain_token word.now))
        (whole (plain_of owner.now.of) (map plain_token word.now)) n ×
        WritesAt (dtd_of owner.now.layout.now.grammar.now) (plain_of owner.now.of) n
        (map plain_token word.now) (plain_pieces pieces.items))) }
    ensures fits { OnOk result (FitsWeights (dtd_of owner.now.layout.now.grammar.now)
        (length word.now)) }
    ensures wide { IfErr result (λ e. e ≡ too_wide →
        ¬ FitsWeights (dtd_of owner.now.layout.now.grammar.now) (length word.now)) }
{
    let spans = match weights_by(alloc, owner.layout, word) {
        Ok(spans) => spans,
        Err(error) => return Err(error),
    };
    let weight = weight_by(owner, word, &spans);
    if weight >= HEAVIEST {
        return Ok(None);
    }
    let pieces = spell(alloc, owner, word, &spans, weight)?;
    Ok(Some(pieces))
}
