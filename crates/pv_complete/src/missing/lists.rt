//! The weight of one list, found once for its owner and its live word.

ghost use Rattle.std.specs.Prelude.{◌≡◌, ◌≤◌, ◌<◌, ◌^◌, IfErr, IfOk, IfSome, List, OnOk, length};
ghost use Rattle.std.specs.Prelude.{map};
ghost use Rattle.pv_model.specs.Plain.{PlainToken};
ghost use Rattle.pv_model.specs.PlainForms.{plain_token};
ghost use Rattle.pv_rules.specs.Derivations.{IsWeight, heaviest};
ghost use Rattle.pv_rules.specs.Rules.{Rule};
ghost use Rattle.pv_productive.specs.PlainForms.{dtd_of};
ghost use Rattle.pv_tree.specs.PlainForms.{forest};
ghost use Rattle.pv_tree.specs.Words.{word_of};
ghost use Rattle.pv_missing.specs.LiveWords.{AreProductiveTokens, IsLiveWord};
ghost use Rattle.pv_missing.specs.PlainForms.{plain_of};
ghost use Rattle.pv_missing.specs.ListWeights.{whole};
ghost use Rattle.pv_missing.specs.Widths.{FitsWeights};
ghost use Rattle.pv_span.specs.Weights.{AreWeights, weight_of};
ghost use Rattle.pv_span.specs.declared.errors.SpanError.TheVariants.{TooWide as too_wide};
ghost use Rattle.pv_complete.specs.KnownWeights.{AreKnown, AreKnownEntries, AreKnownPieces};

use crate::listings::entries::entries_of;
use crate::missing::known::KnownWeights;
use crate::words::completing::{spell, weight_by};
use pv_chars::{List, NoMemory};
use pv_missing::live_word;
use pv_model::Token;
use pv_rules::HEAVIEST;
use pv_span::{Entries, ListOwner, SpanError, Spans, weights_by};
use pv_tree::{Node, Tokens};
use pv_write::Piece;
use std::alloc::Global;

/// What a word weighs, and where they are wanted the pieces of a completion, and the entries of its
/// table.
#[derive(Drop)]
struct Spelled {
    weight: u32,
    pieces: Option<List<Piece>>,
    table: Option<Entries>,
}

/// The pieces of a completion of a word that weighs so much, where they are wanted and it has one
/// with at most 1,000,000 new elements.
fn wanted_pieces(
    alloc: Global,
    owner: &ListOwner<'_>,
    word: &[Token],
    spans: &Spans<'_>,
    weight: u32,
    wanted: bool,
) -> Result<Option<List<Piece>>, NoMemory>
    requires weights { AreWeights (dtd_of owner.now.layout.now.grammar.now)
        (map plain_token word.now) spans.now }
    requires told { weight ≡ weight_of spans.now
        (whole (plain_of owner.now.of) (map plain_token word.now)) }
    ensures { IfOk result (AreKnownPieces (dtd_of owner.now.layout.now.grammar.now)
        (plain_of owner.now.of) (map plain_token word.now) weight) }
{
    if !wanted {
        return Ok(None);
    }
    if weight >= HEAVIEST {
        return Ok(None);
    }
    let pieces = spell(alloc, owner, word, spans, weight)?;
    Ok(Some(List::of(pieces)))
}

/// All entries of a word by the weights of all sites over its spans, where there is room for them.
fn wanted_entries(
    alloc: Global,
    owner: &ListOwner<'_>,
    word: &[Token],
    spans: &Spans<'_>,
    room: u32,
) -> Option<Entries>
    requires { AreWeights (dtd_of owner.now.layout.now.grammar.now) (map plain_token word.now)
        spans.now }
    ensures { AreKnownEntries (dtd_of owner.now.layout.now.grammar.now)
        (map plain_token word.now) result }
{
    if room == 0 {
        return None;
    }
    let tokens = word.len() as u32;
    match entries_of(alloc, owner.layout.grammar, spans, tokens, room) {
        Ok(entries) => Some(List::of(entries)),
        Err(_error) => None,
    }
}

/// The weight of a whole word of productive names at its owner's site, with what is wanted beside
/// it: pieces, and so many entries at most.
fn spelled_word(
    alloc: Global,
    owner: &ListOwner<'_>,
    word: &[Token],
    wants_pieces: bool,
    room: u32,
) -> Result<Spelled, SpanError>
    requires { AreProductiveTokens (dtd_of owner.now.layout.now.grammar.now)
        (map plain_token word.now) }
    ensures weight { IfOk result (λ spelled.
        IsWeight (Rule (dtd_of owner.now.layout.now.grammar.now) (map plain_token word.now))
        (whole (plain_of owner.now.of) (map plain_token word.now)) spelled.weight) }
    ensures pieces { IfOk result (λ spelled.
        AreKnownPieces (dtd_of owner.now.layout.now.grammar.now) (plain_of owner.now.of)
        (map plain_token word.now) spelled.weight spelled.pieces) }
    ensures table { IfOk result (λ spelled.
        AreKnownEntries (dtd_of owner.now.layout.now.grammar.now) (map plain_token word.now)
        spelled.table) }
    ensures fits { OnOk result (FitsWeights (dtd_of owner.now.layout.now.grammar.now)
        (length word.now)) }
    ensures wide { IfErr result (λ e. e ≡ too_wide →
        ¬ FitsWeights (dtd_of owner.now.layout.now.grammar.now) (length word.now)) }
{
    let spans = match weights_by(alloc, owner.layout, word) {
        Ok(spans) => spans,
        Err(error) => return Err(error),
    };
    let weight = weight_by(owner, word, &spans);
    let pieces = wanted_pieces(alloc, owner, word, &spans, weight, wants_pieces)?;
    let table = wanted_entries(alloc, owner, word, &spans, room);
    Ok(Spelled {
        weight,
        pieces,
        table,
    })
}

/// The weight alone, where the word isn't weighed again if its weight is known; it is, after the
/// call.
fn known_weight(
    alloc: Global,
    owner: &ListOwner<'_>,
    word: Tokens,
    known: &mut KnownWeights,
) -> Result<u32, SpanError>
    requires productive { AreProductiveTokens (dtd_of owner.now.layout.now.grammar.now)
        (map plain_token word) }
    requires known { AreKnown (dtd_of owner.now.layout.now.grammar.now) known.old }
    ensures weight { IfOk result (IsWeight (Rule (dtd_of owner.now.layout.now.grammar.now)
        (map plain_token word)) (whole (plain_of owner.now.of) (map plain_token word))) }
    ensures fits { OnOk result (FitsWeights (dtd_of owner.now.layout.now.grammar.now)
        (length word)) }
    ensures wide { IfErr result (λ e. e ≡ too_wide →
        ¬ FitsWeights (dtd_of owner.now.layout.now.grammar.now) (length word)) }
    ensures known { AreKnown (dtd_of owner.now.layout.now.grammar.now) known.new }
{
    if let Some(weight) = known.find(owner.of, word.as_slice()) {
        return Ok(weight);
    }
    let (pieces, room) = (known.keeps_pieces, known.table_room);
    match spelled_word(alloc, owner, word.as_slice(), pieces, room) {
        Ok(spelled) => {
            let weight = spelled.weight;
            known.keep(alloc, owner.of, word, weight, spelled.pieces, spelled.table);
            Ok(weight)
        }
        Err(error) => Err(error),
    }
}

/// The weight of the whole live word of these kids at their owner's site.
pub fn weight_of(
    alloc: Global,
    owner: &ListOwner<'_>,
    kids: &[Node],
    known: &mut KnownWeights,
) -> Result<u32, SpanError>
    requires { AreKnown (dtd_of owner.now.layout.now.grammar.now) known.old }
    ensures weight { IfOk result (λ weight. (live : List PlainToken) ×
        IsLiveWord (dtd_of owner.now.layout.now.grammar.now)
        (word_of (dtd_of owner.now.layout.now.grammar.now) (forest kids.now)) live ×
        IsWeight (Rule (dtd_of owner.now.layout.now.grammar.now) live)
        (whole (plain_of owner.now.of) live) weight) }
    ensures fits { OnOk result (FitsWeights (dtd_of owner.now.layout.now.grammar.now)
        (length (word_of (dtd_of owner.now.layout.now.grammar.now) (forest kids.now)))) }
    ensures wide { IfErr result (λ e. e ≡ too_wide →
        ¬ FitsWeights (dtd_of owner.now.layout.now.grammar.now)
        (length (word_of (dtd_of owner.now.layout.now.grammar.now) (forest kids.now)))) }
    ensures known { AreKnown (dtd_of owner.now.layout.now.grammar.now) known.new }
{
    let live = live_word(alloc, owner.layout.grammar, kids)?;
    known_weight(alloc, owner, live, known)
}
