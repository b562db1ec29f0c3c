//! The pieces of each list, in document order.

ghost use Rattle.std.specs.Prelude.{◌≡◌, ◌<◌, ◌∷◌, List, IfOk, ℕ, drop, length, map};
ghost use Rattle.pv_model.specs.PlainForms.{plain_token};
ghost use Rattle.pv_productive.specs.PlainForms.{dtd_of};
ghost use Rattle.pv_rules.specs.Derivations.{IsWeight, heaviest};
ghost use Rattle.pv_rules.specs.Rules.{Rule};
ghost use Rattle.pv_tree.specs.Lists.{Listed, lists_of};
ghost use Rattle.pv_tree.specs.PlainDocs.{plain_doc};
ghost use Rattle.pv_tree.specs.PlainForms.{forest};
ghost use Rattle.pv_tree.specs.declared.nodes.Mark.{Mark};
ghost use Rattle.pv_write.specs.PieceForms.{plain_lists, plain_pieces};
ghost use Rattle.pv_missing.specs.LiveWords.{AreProductiveTokens};
ghost use Rattle.pv_missing.specs.PlainForms.{plain_of};
ghost use Rattle.pv_missing.specs.Verdicts.{AreVerdicts};
ghost use Rattle.pv_missing.specs.ListWeights.{whole};
ghost use Rattle.pv_missing.specs.Widths.{FitsWeights};
ghost use Rattle.pv_missing.specs.Owners.{IsOwner};
ghost use Rattle.pv_complete.specs.KnownWeights.{AreKnown};
ghost use Rattle.pv_complete.specs.ListPieces.{AreLightVerdicts, AreNextPieces};
ghost use Rattle.pv_complete.specs.ListPieces.{AreNotImpossible, ArePieces, HasNextList};
ghost use Rattle.pv_complete.specs.Pieces.{WritesAt};

use crate::missing::known::KnownWeights;
use crate::missing::load::next_is_possible;
use crate::words::completing::list_pieces;
use pv_chars::NoMemory;
use pv_fresh::owner_under;
use pv_missing::{Of, Verdicts, live_word};
use pv_model::Token;
use pv_span::{ColumnLayout, ListOwner, SpanError};
use pv_tree::{Doc, Lists, Node};
use pv_write::Piece;
use std::alloc::Global;

// The pieces of a least completion of a word, put together unless they are known.
fn least_pieces(
    alloc: Global,
    owner: &ListOwner<'_>,
    word: &[Token],
    known: &KnownWeights,
) -> Result<Vec<Piece>, NoMemory>
    requires known { AreKnown (dtd_of owner.now.layout.now.grammar.now) known.now }
    requires productive { AreProductiveTokens (dtd_of owner.now.layout.now.grammar.now)
        (map plain_token word.now) }
    requires fits { FitsWeights (dtd_of owner.now.layout.now.grammar.now) (length word.now) }
    requires light { (k : ℕ) →
        IsWeight (Rule (dtd_of owner.now.layout.now.grammar.now) (map plain_token word.now))
        (whole (plain_of owner.now.of) (map plain_token word.now)) k → k < heaviest }
    ensures { IfOk result (λ pieces. (n : ℕ) ×
        IsWeight (Rule (dtd_of owner.now.layout.now.grammar.now) (map plain_token word.now))
        (whole (plain_of owner.now.of) (map plain_token word.now)) n ×
        WritesAt (dtd_of owner.now.layout.now.grammar.now) (plain_of owner.now.of) n
        (map plain_token word.now) (plain_pieces pieces.items)) }
{
    if let Some(pieces) = known.pieces(owner.of, word) {
        return Ok(Vec::from_slice(alloc, pieces)?);
    }
    match list_pieces(alloc, owner, word) {
        Ok(Some(pieces)) => Ok(pieces),
        Ok(None) => unreachable!(),
        Err(SpanError::TooWide) => unreachable!(),
        Err(SpanError::NoMemory) => Err(NoMemory),
    }
}

// The pieces of a list, and its verdict is used: those of a least completion where it is Possible,
// and none where it is Valid.
fn next_pieces(
    alloc: Global,
    layout: &ColumnLayout<'_>,
    owner: Option<Of>,
    kids: &[Node],
    verdicts: &Verdicts,
    known: &KnownWeights,
    used: &mut u64,
) -> Result<Vec<Piece>, NoMemory>
    requires known { AreKnown (dtd_of layout.now.grammar.now) known.now }
    requires possible { AreNotImpossible verdicts.now.verdicts }
    requires next { ∥ HasNextList (dtd_of layout.now.grammar.now) owner (forest kids.now)
        verdicts.now.verdicts used.old ∥₁ }
    ensures { IfOk result (λ pieces. (root : List ℕ) (list : Listed Mark)
        (more : List (Listed Mark)) →
        list.kids ≡ forest kids.now → IsOwner (dtd_of layout.now.grammar.now) root list owner →
        AreVerdicts (dtd_of layout.now.grammar.now) root (list ∷ more)
        (drop used.old verdicts.now.verdicts) →
        AreNextPieces (dtd_of layout.now.grammar.now) root list more verdicts.now.verdicts
        used.old used.new (plain_pieces pieces.items)) }
{
    let possible = next_is_possible(verdicts, used);
    let Some(of) = owner else {
        unreachable!();
    };
    let live = live_word(alloc, layout.grammar, kids)?;
    if possible {
        least_pieces(alloc, &ListOwner { layout, of }, live.as_slice(), known)
    } else {
        Ok(Vec::new(alloc))
    }
}

/// The pieces of each list of a document, in document order, by the verdicts of its lists.
pub fn pieces_of_lists(
    alloc: Global,
    layout: &ColumnLayout<'_>,
    root: &[u8],
    doc: &Doc,
    verdicts: &Verdicts,
    known: &KnownWeights,
) -> Result<Vec<Vec<Piece>>, NoMemory>
    requires known { AreKnown (dtd_of layout.now.grammar.now) known.now }
    requires possible { AreNotImpossible verdicts.now.verdicts }
    requires light { ∥ AreLightVerdicts (dtd_of layout.now.grammar.now) root.now
        (plain_doc doc.now) verdicts.now.verdicts ∥₁ }
    ensures { IfOk result (λ pieces. AreVerdicts (dtd_of layout.now.grammar.now) root.now
        (lists_of (plain_doc doc.now)) verdicts.now.verdicts →
        ArePieces (dtd_of layout.now.grammar.now) root.now (lists_of (plain_doc doc.now))
        verdicts.now.verdicts (plain_lists pieces.items)) }
{
    let mut used = 0u64;
    let mut pieces = Vec::new(alloc);
    let mut lists = Lists::of(alloc, doc);
    while let Some(list) = lists.next()? {
        let owner = owner_under(layout.grammar, root, list.owner);
        let next = next_pieces(alloc, layout, owner, list.kids, verdicts, known, &mut used)?;
        pieces.push(next)?;
    }
    Ok(pieces)
}
