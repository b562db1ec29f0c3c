//! The tables of all Possible lists, in document order.

ghost use Rattle.std.specs.Prelude.{◌≡◌, ◌≤◌, ◌<◌, ◌∷◌, [], List, ℕ, IfErr, IfOk, OnOk};
ghost use Rattle.std.specs.Prelude.{length, map};
ghost use Rattle.pv_model.specs.PlainForms.{plain_token};
ghost use Rattle.pv_productive.specs.PlainForms.{dtd_of};
ghost use Rattle.pv_tree.specs.Lists.{Listed, lists_of};
ghost use Rattle.pv_tree.specs.PlainDocs.{plain_doc};
ghost use Rattle.pv_tree.specs.PlainForms.{forest};
ghost use Rattle.pv_tree.specs.ListWalks.{path_come_to};
ghost use Rattle.pv_tree.specs.Words.{word_of};
ghost use Rattle.pv_tree.specs.declared.nodes.Mark.{Mark};
ghost use Rattle.pv_missing.specs.LiveWords.{AreProductiveTokens};
ghost use Rattle.pv_missing.specs.Widths.{FitsWeights};
ghost use Rattle.pv_missing.specs.Owners.{IsOwner};
ghost use Rattle.pv_complete.specs.KnownWeights.{AreKnown};
ghost use Rattle.pv_complete.specs.PlainForms.{made_of};
ghost use Rattle.pv_tables.specs.Tables.{AreAllEntries};
ghost use Rattle.pv_complete.specs.TableWalks.{AreListEntries, MakesTables, StopsKids, StopsTables};
ghost use Rattle.pv_complete.specs.TableWalks.{StopsWord};

use crate::errors::NeedError;
use crate::listings::entries::entries_of;
use crate::listings::made::Made;
use crate::missing::known::KnownWeights;
use crate::missing::load::next_is_possible;
use pv_fresh::owner_under;
use pv_missing::{Of, Verdicts, live_word};
use pv_model::Token;
use pv_span::{ColumnLayout, Entry, ListOwner, SpanError, is_known_owner, weights_by};
use pv_tree::{Doc, Lists, Node, Path};
use std::alloc::Global;

/// All entries of a word of productive names, by its owner and the places of its list, if there are
/// no more than there is room for.
fn word_entries(
    alloc: Global,
    owner: &ListOwner<'_>,
    word: &[Token],
    places: &[u32],
    room: u32,
) -> Result<Vec<Entry>, NeedError>
    requires { AreProductiveTokens (dtd_of owner.now.layout.now.grammar.now)
        (map plain_token word.now) }
    ensures entries { IfOk result (λ entries. AreAllEntries
        (dtd_of owner.now.layout.now.grammar.now) (map plain_token word.now) entries.items) }
    ensures few { IfOk result (λ entries. length entries.items ≤ room) }
    ensures fits { OnOk result (FitsWeights (dtd_of owner.now.layout.now.grammar.now)
        (length word.now)) }
    ensures refused { IfErr result (StopsWord (dtd_of owner.now.layout.now.grammar.now)
        (map plain_token word.now) places.now room) }
{
    match weights_by(alloc, owner.layout, word) {
        Ok(spans) => entries_of(alloc, owner.layout.grammar, &spans, word.len() as u32, room),
        Err(SpanError::TooWide) => Err(NeedError::TooWide(Path::new(alloc, places)?)),
        Err(SpanError::NoMemory) => Err(NeedError::NoMemory),
    }
}

/// All entries of a word of productive names, which isn't weighed again if its table is known.
fn known_entries(
    alloc: Global,
    owner: &ListOwner<'_>,
    word: &[Token],
    known: &KnownWeights,
    places: &[u32],
    room: u32,
) -> Result<Vec<Entry>, NeedError>
    requires known { AreKnown (dtd_of owner.now.layout.now.grammar.now) known.now }
    requires productive { AreProductiveTokens (dtd_of owner.now.layout.now.grammar.now)
        (map plain_token word.now) }
    ensures entries { IfOk result (λ entries. AreAllEntries
        (dtd_of owner.now.layout.now.grammar.now) (map plain_token word.now) entries.items) }
    ensures few { IfOk result (λ entries. length entries.items ≤ room) }
    ensures fits { OnOk result (FitsWeights (dtd_of owner.now.layout.now.grammar.now)
        (length word.now)) }
    ensures refused { IfErr result (StopsWord (dtd_of owner.now.layout.now.grammar.now)
        (map plain_token word.now) places.now room) }
{
    let Some(entries) = known.table(owner.of, word) else {
        return word_entries(alloc, owner, word, places, room);
    };
    if entries.len() > room as usize {
        return Err(NeedError::TooMany);
    }
    let copy = Vec::from_slice(alloc, entries)?;
    Ok(copy)
}

/// The entries of the live word of these kids.
fn kids_entries(
    alloc: Global,
    owner: &ListOwner<'_>,
    kids: &[Node],
    known: &KnownWeights,
    places: &[u32],
    room: u32,
) -> Result<Vec<Entry>, NeedError>
    requires { AreKnown (dtd_of owner.now.layout.now.grammar.now) known.now }
    ensures entries { IfOk result (λ entries. AreListEntries
        (dtd_of owner.now.layout.now.grammar.now) (forest kids.now) entries.items) }
    ensures few { IfOk result (λ entries. length entries.items ≤ room) }
    ensures fits { OnOk result (FitsWeights (dtd_of owner.now.layout.now.grammar.now)
        (length (word_of (dtd_of owner.now.layout.now.grammar.now) (forest kids.now)))) }
    ensures refused { IfErr result (StopsKids (dtd_of owner.now.layout.now.grammar.now)
        (forest kids.now) places.now room) }
{
    let live = live_word(alloc, owner.layout.grammar, kids)?;
    known_entries(alloc, owner, live.as_slice(), known, places, room)
}

/// Adds the table of the list of these kids, which a walk came to last, where it is Possible.
fn table_list(
    alloc: Global,
    layout: &ColumnLayout<'_>,
    owner: Option<Of>,
    lists: &Lists<'_>,
    kids: &[Node],
    verdicts: &Verdicts,
    known: &KnownWeights,
    made: &mut Made,
) -> Result<(), NeedError>
    requires { AreKnown (dtd_of layout.now.grammar.now) known.now }
    ensures tabled { OnOk result ((root : List ℕ) (list : Listed Mark) →
        list.kids ≡ forest kids.now → list.path ≡ path_come_to lists.now →
        IsOwner (dtd_of layout.now.grammar.now) root list owner →
        MakesTables (dtd_of layout.now.grammar.now) root (list ∷ []) verdicts.now.verdicts
        (made_of made.old) (made_of made.new)) }
    ensures refused { IfErr result (λ e. (root : List ℕ) (list : Listed Mark) →
        list.kids ≡ forest kids.now → list.path ≡ path_come_to lists.now →
        IsOwner (dtd_of layout.now.grammar.now) root list owner →
        StopsTables (dtd_of layout.now.grammar.now) root (list ∷ [])
        verdicts.now.verdicts (made_of made.old) e) }
{
    if !next_is_possible(verdicts, &mut made.used) {
        return Ok(());
    }
    let Some(of) = owner else {
        return Ok(());
    };
    if !is_known_owner(layout.grammar, of) {
        return Ok(());
    }
    let owner = ListOwner { layout, of };
    let path = lists.path(alloc)?;
    let entries = kids_entries(alloc, &owner, kids, known, path.places(), made.room)?;
    made.add(path, entries)?;
    Ok(())
}

/// Adds the tables of the Possible lists of a document to nothing. Those that are known are copied.
pub fn table_doc(
    alloc: Global,
    layout: &ColumnLayout<'_>,
    root: &[u8],
    doc: &Doc,
    verdicts: &Verdicts,
    known: &KnownWeights,
    made: &mut Made,
) -> Result<(), NeedError>
    requires { AreKnown (dtd_of layout.now.grammar.now) known.now }
    ensures tabled { OnOk result (MakesTables (dtd_of layout.now.grammar.now) root.now
        (lists_of (plain_doc doc.now)) verdicts.now.verdicts
        (made_of made.old) (made_of made.new)) }
    ensures refused { IfErr result (StopsTables (dtd_of layout.now.grammar.now) root.now
        (lists_of (plain_doc doc.now)) verdicts.now.verdicts (made_of made.old)) }
{
    let mut lists = Lists::of(alloc, doc);
    while let Some(list) = lists.next()? {
        let owner = owner_under(layout.grammar, root, list.owner);
        table_list(
            alloc, layout, owner, &lists, list.kids, verdicts, known, made,
        )?;
    }
    Ok(())
}
