//! Bounds of what is missing in the lists of a document, added up.

ghost use Rattle.std.specs.Prelude.{◌≡◌, ◌∷◌, [], IfOk, List, ℕ, OnOk, Some, map};
ghost use Rattle.pv_model.specs.PlainForms.{plain_token};
ghost use Rattle.pv_productive.specs.PlainForms.{dtd_of};
ghost use Rattle.pv_tree.specs.Lists.{Listed, lists_of};
ghost use Rattle.pv_tree.specs.PlainDocs.{plain_doc};
ghost use Rattle.pv_tree.specs.PlainForms.{forest};
ghost use Rattle.pv_tree.specs.declared.nodes.Mark.{Mark};
ghost use Rattle.pv_missing.specs.Owners.{IsOwner};
ghost use Rattle.pv_missing.specs.PlainForms.{plain_of};
ghost use Rattle.pv_missing.specs.ListWeights.{IsBound, site_of};
ghost use Rattle.pv_long.specs.AddedBounds.{AreBounded};
ghost use Rattle.pv_long.specs.KnownBounds.{AreWordBounds, IsWordBound};

use crate::deadlines::Deadline;
use crate::errors::MakeError;
use crate::known::KnownBounds;
use crate::making::known_columns::KnownColumns;
use crate::word_bounds::bound_word;
use pv_fresh::owner_under;
use pv_missing::{Of, Verdicts};
use pv_model::Token;
use pv_rules::HEAVIEST;
use pv_tree::{Doc, Lists, Node, Tokens, Verdict, word};
use pv_write::Piece;
use std::alloc::Global;

/// What is found of the lists so far: how many there were, a number that their bounds add up to at
/// least, whether one of them lacks more than 1,000,000 elements by its bound, and the pieces of
/// each, none where it isn't Possible or lacks so many.
#[derive(Drop)]
pub struct Found {
    used: u64,
    pub least: u32,
    pub has_heavy: bool,
    pub pieces: Vec<Vec<Piece>>,
}

impl Found {
    /// No list so far.
    pub fn none(alloc: Global) -> Found
        ensures { result.least ≡ 0 }
    {
        Found {
            used: 0,
            least: 0,
            has_heavy: false,
            pieces: Vec::new(alloc),
        }
    }

    // Goes to the next list, and tells whether the one before is Possible.
    fn takes_possible(&mut self, verdicts: &Verdicts) -> bool
        ensures { self.new.least ≡ self.old.least }
    {
        let verdict = verdicts.at(self.used);
        self.used = u64::saturating_add(self.used, 1);
        matches!(verdict, Some(Verdict::Possible))
    }
}

// A lower bound of a word, and pieces. What is remembered gives back its memory where there is too
// little.
fn bound_with_room<D: Deadline>(
    alloc: Global,
    known: &KnownColumns<'_>,
    of: Of,
    word: &[Token],
    deadline: &D,
    bounds: &mut KnownBounds,
) -> Result<(u32, Vec<Piece>), MakeError>
    requires { AreWordBounds (dtd_of known.now.layout.now.grammar.now) bounds.old }
    ensures bound { IfOk result (λ found. IsWordBound (dtd_of known.now.layout.now.grammar.now) of
        (map plain_token word.now) found.0) }
    ensures known { AreWordBounds (dtd_of known.now.layout.now.grammar.now) bounds.new }
{
    match bound_word(alloc, known, of, word, deadline) {
        Err(MakeError::NoMemory) if !bounds.is_empty() => {
            bounds.forget(alloc);
            bound_word(alloc, known, of, word, deadline)
        }
        found => found,
    }
}

// A lower bound of a word, and pieces, by what is remembered. They are remembered then too.
fn bound_once<D: Deadline>(
    alloc: Global,
    known: &KnownColumns<'_>,
    of: Of,
    word: Tokens,
    deadline: &D,
    bounds: &mut KnownBounds,
) -> Result<(u32, Vec<Piece>), MakeError>
    requires { AreWordBounds (dtd_of known.now.layout.now.grammar.now) bounds.old }
    ensures bound { IfOk result (λ found. IsWordBound (dtd_of known.now.layout.now.grammar.now) of
        (map plain_token word) found.0) }
    ensures known { AreWordBounds (dtd_of known.now.layout.now.grammar.now) bounds.new }
{
    if let Some(found) = bounds.find(of, word.as_slice()) {
        return Ok((found.least, found.pieces.as_slice().to_vec(alloc)?));
    }
    let (least, pieces) = bound_with_room(alloc, known, of, word.as_slice(), deadline, bounds)?;
    bounds.keep(alloc, of, word, least, pieces.as_slice());
    Ok((least, pieces))
}

// How many elements are missing in a list of these kids at least, and the pieces of a completion.
fn bound_kids<D: Deadline>(
    alloc: Global,
    known: &KnownColumns<'_>,
    of: Of,
    kids: &[Node],
    deadline: &D,
    bounds: &mut KnownBounds,
) -> Result<(u32, Vec<Piece>), MakeError>
    requires { AreWordBounds (dtd_of known.now.layout.now.grammar.now) bounds.old }
    ensures bound { IfOk result (λ found. (root : List ℕ) (list : Listed Mark) →
        list.kids ≡ forest kids.now →
        site_of (dtd_of known.now.layout.now.grammar.now) root list.owner ≡ Some (plain_of of) →
        IsBound (dtd_of known.now.layout.now.grammar.now) root list found.0) }
    ensures known { AreWordBounds (dtd_of known.now.layout.now.grammar.now) bounds.new }
{
    let word = word(alloc, known.layout.grammar.dtd(), kids)?;
    let found = bound_once(alloc, known, of, word, deadline, bounds)?;
    Ok(found)
}

// Bounds the list of these kids where it is Possible.
fn bound_list<D: Deadline>(
    alloc: Global,
    known: &KnownColumns<'_>,
    owner: Option<Of>,
    kids: &[Node],
    verdicts: &Verdicts,
    deadline: &D,
    bounds: &mut KnownBounds,
    found: &mut Found,
) -> Result<(), MakeError>
    requires { AreWordBounds (dtd_of known.now.layout.now.grammar.now) bounds.old }
    ensures bounded { OnOk result ((root : List ℕ) (list : Listed Mark) →
        list.kids ≡ forest kids.now →
        IsOwner (dtd_of known.now.layout.now.grammar.now) root list owner →
        AreBounded (dtd_of known.now.layout.now.grammar.now) root (list ∷ []) found.old.least
        found.new.least) }
    ensures known { AreWordBounds (dtd_of known.now.layout.now.grammar.now) bounds.new }
{
    if !found.takes_possible(verdicts) {
        found.pieces.push(Vec::new(alloc))?;
        return Ok(());
    }
    let Some(of) = owner else {
        return Err(MakeError::Unproved);
    };
    let (least, pieces) = bound_kids(alloc, known, of, kids, deadline, bounds)?;
    found.pieces.push(pieces)?;
    found.has_heavy = found.has_heavy || least >= HEAVIEST;
    found.least = u32::saturating_add(found.least, least);
    Ok(())
}

/// Bounds the lists of a document: a number that their bounds add up to at least, and the pieces of
/// each, by the verdicts. A list whose owner and word came before isn't bounded again. After the
/// deadline, nothing is sought of a list but a completion.
pub fn bound_doc<D: Deadline>(
    alloc: Global,
    known: &KnownColumns<'_>,
    root: &[u8],
    doc: &Doc,
    verdicts: &Verdicts,
    deadline: &D,
) -> Result<Found, MakeError>
    ensures { IfOk result (λ found. AreBounded (dtd_of known.now.layout.now.grammar.now) root.now
        (lists_of (plain_doc doc.now)) 0 found.least) }
{
    let mut found = Found::none(alloc);
    let mut bounds = KnownBounds::none(alloc);
    let mut lists = Lists::of(alloc, doc);
    while let Some(list) = lists.next()? {
        let owner = owner_under(known.layout.grammar, root, list.owner);
        bound_list(
            alloc,
            known,
            owner,
            list.kids,
            verdicts,
            deadline,
            &mut bounds,
            &mut found,
        )?;
    }
    Ok(found)
}
