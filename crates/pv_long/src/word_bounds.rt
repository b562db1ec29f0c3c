//! Bounds of what is missing in a list, by its word, with the pieces of a completion.

ghost use Rattle.std.specs.Prelude.{◌≡◌, IfOk, map};
ghost use Rattle.pv_model.specs.PlainForms.{plain_token};
ghost use Rattle.pv_productive.specs.PlainForms.{dtd_of};
ghost use Rattle.pv_rules.specs.PlainForms.{plain_site};
ghost use Rattle.pv_missing.specs.PlainForms.{plain_of};
ghost use Rattle.pv_long.specs.KnownBounds.{IsWordBound};

use crate::deadlines::Deadline;
use crate::errors::MakeError;
use crate::making::building::{build, build_by_fronts};
use crate::making::filling::{Filled, fill, fill_ahead, fill_few, fill_short};
use crate::making::known_columns::KnownColumns;
use crate::making::windows::windowed;
use pv_bounds::laws::below_sites_law;
use pv_bounds::{Fronts, are_closed, bound};
use pv_chars::NoMemory;
use pv_layout::ColumnLayout;
use pv_missing::Of;
use pv_model::Token;
use pv_rules::{HEAVIEST, Site};
use pv_tree::Mark;
use pv_write::Piece;
use std::alloc::Global;

// The site of what an owner's kids are to be.
fn site_at(of: Of) -> Site
    ensures { plain_site result ≡ plain_of of }
{
    match of {
        Of::Root(id) => Site::Name(id),
        Of::Elem(id) => Site::Content(id),
    }
}

// How many elements are missing in a list of this word at least, by fronts; none where these aren't
// closed.
fn word_bound(
    alloc: Global,
    layout: &ColumnLayout<'_>,
    of: Of,
    word: &[Token],
    fronts: &Fronts,
) -> Result<u32, NoMemory>
    ensures { IfOk result
        (IsWordBound (dtd_of layout.now.grammar.now) of (map plain_token word.now)) }
{
    below_sites_law::<Mark>();
    if word.len() > u32::MAX as usize {
        return Ok(0);
    }
    if are_closed(alloc, layout, word, fronts)? {
        Ok(bound(layout, fronts, site_at(of), word.len() as u32))
    } else {
        Ok(0)
    }
}

/// How many places windows go over, the small and the larger ones.
const WINDOW: u32 = 24;

const LARGER_WINDOW: u32 = 56;

/// So far on all ends are told apart in the last of the ways in which few reaches are made.
const FEW_AHEAD: u32 = 64;

// Fronts that tell nothing.
fn no_fronts(alloc: Global) -> Fronts {
    Fronts {
        empty: Vec::new(alloc),
        classes: Vec::new(alloc),
        rows: Vec::new(alloc),
        ends: Vec::new(alloc),
    }
}

// The pieces of a list's completion, by what is made of it.
fn pieces_by(
    alloc: Global,
    known: &KnownColumns<'_>,
    of: Of,
    word: &[Token],
    filled: &Filled,
) -> Result<Vec<Piece>, MakeError> {
    let column = known.layout.column(site_at(of));
    let Ok(tokens) = u32::try_from(word.len()) else {
        return Err(MakeError::TooMany);
    };
    build(alloc, known.layout.forms(), filled, column, tokens)
}

// How many elements are new in pieces.
fn new_in(pieces: &[Piece]) -> usize {
    pieces
        .iter()
        .filter(|piece| matches!(**piece, Piece::Start(_)))
        .count()
}

// Those of two completions of a list that have fewer new elements.
fn fewer_of(pieces: Vec<Piece>, others: Vec<Piece>) -> Vec<Piece> {
    if new_in(others.as_slice()) < new_in(pieces.as_slice()) {
        others
    } else {
        pieces
    }
}

// The best completion so far, once one more way of finding one was tried. A way that leads to none
// leaves it as it is.
fn better_of(
    pieces: Option<Vec<Piece>>,
    found: Result<Vec<Piece>, MakeError>,
) -> Result<Option<Vec<Piece>>, MakeError> {
    match found {
        Ok(others) => match pieces {
            Some(pieces) => Ok(Some(fewer_of(pieces, others))),
            None => Ok(Some(others)),
        },
        Err(MakeError::NoMemory) => Err(MakeError::NoMemory),
        Err(_) => Ok(pieces),
    }
}

// Whether no more elements are new in a completion than are missing at least.
fn is_least(pieces: &Option<Vec<Piece>>, least: u32) -> bool {
    match pieces {
        Some(pieces) => new_in(pieces.as_slice()) <= least as usize,
        None => false,
    }
}

// The pieces of a completion by few reaches: up to so far on all ends are told apart.
fn pieces_of_few(
    alloc: Global,
    known: &KnownColumns<'_>,
    of: Of,
    word: &[Token],
    near: u32,
) -> Result<Vec<Piece>, MakeError> {
    let column = known.layout.column(site_at(of));
    let filled = fill_few(alloc, known, column, word, near)?;
    pieces_by(alloc, known, of, word, &filled)
}

// The pieces of a completion by reaches that are short or go up to the end of the word.
fn pieces_ahead(
    alloc: Global,
    known: &KnownColumns<'_>,
    of: Of,
    word: &[Token],
) -> Result<Vec<Piece>, MakeError> {
    let filled = fill_ahead(alloc, known, word)?;
    pieces_by(alloc, known, of, word, &filled)
}

// The pieces of a completion of a list with many reaches, by few of these: by other ones as long as
// more elements are new than are missing at least, and the deadline isn't past. None where these
// lead to none.
fn few_pieces<D: Deadline>(
    alloc: Global,
    known: &KnownColumns<'_>,
    of: Of,
    word: &[Token],
    least: u32,
    deadline: &D,
) -> Result<Option<Vec<Piece>>, MakeError> {
    let pieces = better_of(None, pieces_of_few(alloc, known, of, word, 1))?;
    if is_least(&pieces, least) || deadline.is_past() {
        return Ok(pieces);
    }
    let pieces = better_of(pieces, pieces_ahead(alloc, known, of, word))?;
    if is_least(&pieces, least) || deadline.is_past() {
        return Ok(pieces);
    }
    better_of(pieces, pieces_of_few(alloc, known, of, word, FEW_AHEAD))
}

// How many elements are missing in a list of this word at least, and the pieces of a completion, by
// what is made of it; no pieces where more than 1,000,000 are.
fn bound_filled(
    alloc: Global,
    known: &KnownColumns<'_>,
    of: Of,
    word: &[Token],
    filled: &Filled,
) -> Result<(u32, Vec<Piece>), MakeError>
    ensures { IfOk result (λ found. IsWordBound (dtd_of known.now.layout.now.grammar.now) of
        (map plain_token word.now) found.0) }
{
    let least = word_bound(alloc, known.layout, of, word, &filled.fronts)?;
    if least >= HEAVIEST {
        return Ok((least, Vec::new(alloc)));
    }
    let pieces = pieces_by(alloc, known, of, word, filled)?;
    Ok((least, pieces))
}

// The pieces of a completion by fronts alone, if these lead to one in which no more elements are
// new than are missing at least.
fn pieces_within(
    alloc: Global,
    known: &KnownColumns<'_>,
    of: Of,
    word: &[Token],
    fronts: &Fronts,
    least: u32,
) -> Result<Option<Vec<Piece>>, MakeError> {
    if least == 0 || least >= HEAVIEST {
        return Ok(None);
    }
    let column = known.layout.column(site_at(of));
    build_by_fronts(alloc, known.layout.forms(), fronts, column, word, least)
}

// A lower bound of a word by fronts that are made within windows of so many places: 0 where these
// aren't closed. The pieces of a completion, too, where they lead to one.
fn bound_within(
    alloc: Global,
    known: &KnownColumns<'_>,
    of: Of,
    word: &[Token],
    window: u32,
) -> Result<(u32, Option<Vec<Piece>>), MakeError>
    ensures { IfOk result (λ found. IsWordBound (dtd_of known.now.layout.now.grammar.now) of
        (map plain_token word.now) found.0) }
{
    let fronts = match windowed(alloc, known, word, window)? {
        Some(fronts) => fronts,
        None => no_fronts(alloc),
    };
    let least = word_bound(alloc, known.layout, of, word, &fronts)?;
    let pieces = pieces_within(alloc, known, of, word, &fronts, least)?;
    Ok((least, pieces))
}

// A lower bound of a word by fronts that are made within windows: within larger ones where those of
// smaller ones aren't closed, and the deadline isn't past. The pieces of a completion, too, where
// they lead to one.
fn bound_far<D: Deadline>(
    alloc: Global,
    known: &KnownColumns<'_>,
    of: Of,
    word: &[Token],
    deadline: &D,
) -> Result<(u32, Option<Vec<Piece>>), MakeError>
    ensures { IfOk result (λ found. IsWordBound (dtd_of known.now.layout.now.grammar.now) of
        (map plain_token word.now) found.0) }
{
    let (least, pieces) = bound_within(alloc, known, of, word, WINDOW)?;
    if least > 0 || deadline.is_past() {
        return Ok((least, pieces));
    }
    bound_within(alloc, known, of, word, LARGER_WINDOW)
}

// A lower bound of a word, and pieces, by as many reaches as there is room for. There are no pieces
// where more than 1,000,000 elements are missing.
fn bound_by_all(
    alloc: Global,
    known: &KnownColumns<'_>,
    of: Of,
    word: &[Token],
) -> Result<(u32, Vec<Piece>), MakeError>
    ensures { IfOk result (λ found. IsWordBound (dtd_of known.now.layout.now.grammar.now) of
        (map plain_token word.now) found.0) }
{
    let filled = fill(alloc, known, known.layout.column(site_at(of)), word)?;
    bound_filled(alloc, known, of, word, &filled)
}

// A lower bound of a long word, and pieces: by what is seen within windows, and else by as many
// reaches as there is room for.
fn bound_long<D: Deadline>(
    alloc: Global,
    known: &KnownColumns<'_>,
    of: Of,
    word: &[Token],
    deadline: &D,
) -> Result<(u32, Vec<Piece>), MakeError>
    ensures { IfOk result (λ found. IsWordBound (dtd_of known.now.layout.now.grammar.now) of
        (map plain_token word.now) found.0) }
{
    let (least, pieces) = bound_far(alloc, known, of, word, deadline)?;
    if least >= HEAVIEST {
        return Ok((least, Vec::new(alloc)));
    }
    if let Some(pieces) = pieces {
        return Ok((least, pieces));
    }
    if least > 0 || deadline.is_past() {
        if let Some(pieces) = few_pieces(alloc, known, of, word, least, deadline)? {
            return Ok((least, pieces));
        }
    }
    bound_by_all(alloc, known, of, word)
}

// A bound of a word that says nothing, and the pieces of the first completion that is found. Where
// there is none, more than 1,000,000 elements may be missing, which a bound tells.
fn bound_at_once(
    alloc: Global,
    known: &KnownColumns<'_>,
    of: Of,
    word: &[Token],
) -> Result<(u32, Vec<Piece>), MakeError>
    ensures { IfOk result (λ found. IsWordBound (dtd_of known.now.layout.now.grammar.now) of
        (map plain_token word.now) found.0) }
{
    let least = word_bound(alloc, known.layout, of, word, &no_fronts(alloc))?;
    match better_of(None, pieces_of_few(alloc, known, of, word, 1))? {
        Some(pieces) => Ok((least, pieces)),
        None => bound_by_all(alloc, known, of, word),
    }
}

/// A lower bound of a word, and pieces, by whatever is made of it: of a short one all, and of a
/// longer one as much as bounds that meet ask for, up to the deadline; past it, the first pieces
/// that are found. There are no pieces where more than 1,000,000 elements are missing.
pub fn bound_word<D: Deadline>(
    alloc: Global,
    known: &KnownColumns<'_>,
    of: Of,
    word: &[Token],
    deadline: &D,
) -> Result<(u32, Vec<Piece>), MakeError>
    ensures { IfOk result (λ found. IsWordBound (dtd_of known.now.layout.now.grammar.now) of
        (map plain_token word.now) found.0) }
{
    if deadline.is_past() {
        return bound_at_once(alloc, known, of, word);
    }
    if let Some(filled) = fill_short(alloc, known, word)? {
        return bound_filled(alloc, known, of, word, &filled);
    }
    bound_long(alloc, known, of, word, deadline)
}
