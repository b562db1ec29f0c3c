//! Weights that are remembered, by owner and word, and what completions are made from beside them.

ghost use Rattle.std.specs.Prelude.{◌≡◌, IsTrue};

use crate::missing::slots::Slots;
use pv_chars::List;
use pv_missing::Of;
use pv_model::Token;
use pv_rules::HEAVIEST;
use pv_span::{Entries, Entry};
use pv_tree::Tokens;
use pv_write::Piece;
use std::alloc::Global;

/// How many entries of a slot are looked at.
const LOOKS: usize = 32;

/// The most bytes that entries without pieces take, with their words, where a document has few
/// lists.
const MAX_BYTES: usize = 16_000_000;

/// The most bytes that entries with pieces take, with these and their words, where a document has
/// few lists.
const MAX_PIECE_BYTES: usize = 64_000_000;

/// The bytes for each list of a document: those of an entry whose word has eight tokens.
const LIST_BYTES: u64 = 320;

/// The most entries of tables that are kept; each takes 20 bytes.
const MAX_TABLE_ENTRIES: u32 = 4_194_304;

/// The bytes that an entry takes beside its tokens, pieces and table: its own, as many in reserve,
/// its slot's, and what the allocator takes for its word.
const ENTRY_BYTES: usize = 256;

/// The bytes of a token, and of a piece.
const TOKEN_BYTES: usize = 8;

/// What a word weighs by its owner, and where they are kept the pieces of a completion with as many
/// new elements, and the entries of its table.
#[derive(Drop)]
pub struct KnownWeight {
    pub of: Of,
    pub word: Tokens,
    pub weight: u32,
    pub pieces: Option<List<Piece>>,
    pub table: Option<Entries>,
}

/// Weights that are remembered, in the order in which they were found. Where there are too many,
/// the older half is forgotten.
#[derive(Drop)]
pub struct KnownWeights {
    pub entries: Vec<KnownWeight>,
    /// Whether pieces are kept beside the weights.
    pub keeps_pieces: bool,
    /// How many entries of tables more may be kept.
    pub table_room: u32,
    slots: Slots,
    held: usize,
    most: usize,
}

fn mix_in(hash: u32, number: u32) -> u32 {
    hash.wrapping_mul(40_503)
        .wrapping_add(number.wrapping_mul(9_973))
}

fn number_of(token: Token) -> u32 {
    match token {
        Token::Name(id) => id.0.wrapping_add(2),
        Token::Text => 0,
        Token::Other => 1,
    }
}

/// The hash of an owner and a word.
fn hash_of(of: Of, word: &[Token]) -> u32 {
    let mut hash = match of {
        Of::Root(id) => mix_in(1, id.0),
        Of::Elem(id) => mix_in(2, id.0),
    };
    for token in word {
        hash = mix_in(hash, number_of(*token));
    }
    hash
}

fn is_same_token(token: Token, other: Token) -> bool
    ensures { IsTrue result → token ≡ other }
{
    token == other
}

/// Whether two words are the same.
fn are_same(word: &[Token], other: &[Token]) -> bool
    ensures { IsTrue result → word.now ≡ other.now }
{
    if word.len() != other.len() {
        return false;
    }
    for number in 0..word.len() {
        if !is_same_token(word[number], other[number]) {
            return false;
        }
    }
    true
}

fn is_same(of: Of, other: Of) -> bool
    ensures { IsTrue result → of ≡ other }
{
    of == other
}

/// The bytes that an entry of a word takes.
fn bytes_for(word: &[Token], pieces: &Option<List<Piece>>) -> usize {
    let more = match pieces {
        Some(pieces) => pieces.as_slice().len(),
        None => 0,
    };
    let count = usize::saturating_add(word.len(), more);
    usize::saturating_add(usize::saturating_mul(count, TOKEN_BYTES), ENTRY_BYTES)
}

/// How many entries a table has, if it is kept.
fn entries_in(table: &Option<Entries>) -> u32 {
    match table {
        Some(table) => u32::try_from(table.as_slice().len()).unwrap_or(u32::MAX),
        None => 0,
    }
}

/// The bytes that these entries take.
fn bytes_of(entries: &[KnownWeight]) -> usize {
    let mut bytes = 0usize;
    for entry in entries {
        bytes = usize::saturating_add(bytes, bytes_for(entry.word.as_slice(), &entry.pieces));
    }
    bytes
}

impl KnownWeight {
    ghost use Rattle.std.specs.Prelude.{◌≡◌, IfSome, IsTrue, Some};

    /// Whether this is the weight of a word by its owner.
    fn is_of(&self, of: Of, word: &[Token]) -> bool
        ensures { IsTrue result → (self.now.of ≡ of) × (self.now.word ≡ word.now) }
    {
        is_same(self.of, of) && are_same(self.word.as_slice(), word)
    }

    /// The pieces, where they are kept.
    fn as_pieces(&self) -> Option<&[Piece]>
        ensures { IfSome result (λ pieces. self.now.pieces ≡ Some pieces.now) }
    {
        match &self.pieces {
            Some(pieces) => Some(pieces.as_slice()),
            None => None,
        }
    }

    /// The entries of the table, where they are kept.
    fn as_entries(&self) -> Option<&[Entry]>
        ensures { IfSome result (λ entries. self.now.table ≡ Some entries.now) }
    {
        match &self.table {
            Some(entries) => Some(entries.as_slice()),
            None => None,
        }
    }
}

impl KnownWeights {
    ghost use Rattle.std.specs.Prelude.{IfSome, ℕ, length, map};
    ghost use Rattle.pv_dtd.specs.Plain.{PlainDtd};
    ghost use Rattle.pv_model.specs.PlainForms.{plain_token};
    ghost use Rattle.pv_missing.specs.PlainForms.{plain_of};
    ghost use Rattle.pv_missing.specs.ListWeights.{whole};
    ghost use Rattle.pv_missing.specs.Widths.{FitsWeights};
    ghost use Rattle.pv_rules.specs.Derivations.{IsWeight};
    ghost use Rattle.pv_rules.specs.Rules.{Rule};
    ghost use Rattle.pv_tables.specs.Tables.{AreAllEntries};
    ghost use Rattle.pv_complete.specs.KnownWeights.{AreKnown, IsWeighedWord, IsWordWeight};
    ghost use Rattle.pv_write.specs.PieceForms.{plain_pieces};
    ghost use Rattle.pv_complete.specs.Pieces.{WritesAt};

    /// No weight is known. Of what is kept beside weights there may be so much.
    fn keeping(alloc: Global, keeps_pieces: bool, table_room: u32, most: usize) -> KnownWeights
        ensures { (g : PlainDtd) → AreKnown g result }
    {
        KnownWeights {
            entries: Vec::new(alloc),
            keeps_pieces,
            table_room,
            slots: Slots::none(alloc),
            held: 0,
            most,
        }
    }

    /// No weight is known, and nothing is kept beside those that will be.
    pub fn none(alloc: Global) -> KnownWeights
        ensures { (g : PlainDtd) → AreKnown g result }
    {
        KnownWeights::keeping(alloc, false, 0, MAX_BYTES)
    }

    /// No weight is known, and pieces will be kept.
    pub fn with_pieces(alloc: Global) -> KnownWeights
        ensures { (g : PlainDtd) → AreKnown g result }
    {
        KnownWeights::keeping(alloc, true, 0, MAX_PIECE_BYTES)
    }

    /// No weight is known, and pieces and tables will be kept.
    pub fn with_tables(alloc: Global) -> KnownWeights
        ensures { (g : PlainDtd) → AreKnown g result }
    {
        KnownWeights::keeping(alloc, true, MAX_TABLE_ENTRIES, MAX_PIECE_BYTES)
    }

    /// The entry of an owner and a word, where there is one.
    fn entry(&self, of: Of, word: &[Token]) -> Option<&KnownWeight>
        ensures { IfSome result (λ entry. (g : PlainDtd) → AreKnown g self.now →
            IsWeighedWord g (plain_of of) (map plain_token word.now) entry.now.weight
            entry.now.pieces entry.now.table) }
    {
        let hash = hash_of(of, word);
        let mut at = self.slots.last_of(hash);
        for _look in 0..LOOKS {
            let link = self.slots.link(at)?;
            let entry = self.entries.get(at as usize)?;
            if link.hash == hash && entry.is_of(of, word) {
                return Some(entry);
            }
            at = link.next;
        }
        None
    }

    /// Whether pieces are to be kept for an entry that has none.
    fn lacks_pieces(&self, entry: &KnownWeight) -> bool {
        self.keeps_pieces && entry.pieces.is_none() && entry.weight < HEAVIEST
    }

    /// What a word weighs by its owner, where it is known, with its pieces where these are to be
    /// kept.
    pub fn find(&self, of: Of, word: &[Token]) -> Option<u32>
        ensures { IfSome result (λ weight. (g : PlainDtd) → AreKnown g self.now →
            IsWordWeight g (plain_of of) (map plain_token word.now) weight) }
    {
        let entry = self.entry(of, word)?;
        if self.lacks_pieces(entry) {
            return None;
        }
        Some(entry.weight)
    }

    /// The pieces of a completion of a word by its owner, where they are kept.
    pub fn pieces(&self, of: Of, word: &[Token]) -> Option<&[Piece]>
        ensures { IfSome result (λ pieces. (g : PlainDtd) → AreKnown g self.now → (n : ℕ) ×
            IsWeight (Rule g (map plain_token word.now))
            (whole (plain_of of) (map plain_token word.now)) n ×
            WritesAt g (plain_of of) n (map plain_token word.now) (plain_pieces pieces.now)) }
    {
        match self.entry(of, word) {
            Some(entry) => entry.as_pieces(),
            None => None,
        }
    }

    /// The entries of a word's table, where they are kept with its weight by this owner.
    pub fn table(&self, of: Of, word: &[Token]) -> Option<&[Entry]>
        ensures { IfSome result (λ entries. (g : PlainDtd) → AreKnown g self.now →
            AreAllEntries g (map plain_token word.now) entries.now ×
            FitsWeights g (length (map plain_token word.now))) }
    {
        match self.entry(of, word) {
            Some(entry) => entry.as_entries(),
            None => None,
        }
    }

    /// Makes room for the weights of so many lists.
    pub fn make_room(&mut self, lists: u64)
        ensures { (g : PlainDtd) → AreKnown g self.old → AreKnown g self.new }
    {
        let bytes = u64::saturating_mul(lists, LIST_BYTES);
        self.most = self.most.max(usize::try_from(bytes).unwrap_or(usize::MAX));
    }

    /// Keeps pieces beside the weights that are found from now on, or none.
    pub fn keep_pieces(&mut self, wanted: bool)
        ensures { (g : PlainDtd) → AreKnown g self.old → AreKnown g self.new }
    {
        self.keeps_pieces = wanted;
        if wanted {
            self.most = self.most.max(MAX_PIECE_BYTES);
        }
    }

    /// Forgets all weights.
    fn forget(&mut self)
        ensures { (g : PlainDtd) → AreKnown g self.new }
    {
        self.entries.truncate(0);
        self.slots.keep_first(0);
        self.held = 0;
    }

    /// Forgets the older half of the weights, and all where there is no memory for the others.
    fn forget_older(&mut self)
        ensures { (g : PlainDtd) → AreKnown g self.old → AreKnown g self.new }
    {
        let half = self.entries.len() - self.entries.len() / 2;
        let Ok(younger) = self.entries.split_off(half) else {
            self.forget();
            return;
        };
        self.entries = younger;
        self.slots.keep_from(half);
        self.held = bytes_of(&self.entries);
    }

    fn has_room(&self, bytes: usize) -> bool {
        usize::saturating_add(self.held, bytes) <= self.most
    }

    /// Forgets the older half of the weights where there is no room for so many bytes more, and all
    /// where that isn't enough.
    fn forget_if_full(&mut self, bytes: usize)
        ensures { (g : PlainDtd) → AreKnown g self.old → AreKnown g self.new }
    {
        if self.has_room(bytes) {
            return;
        }
        self.forget_older();
        if self.has_room(bytes) {
            return;
        }
        self.forget();
    }

    /// Adds an entry, and tells whether there is memory for it.
    fn add(&mut self, entry: KnownWeight) -> bool
        ensures { (g : PlainDtd) → AreKnown g self.old → IsWeighedWord g (plain_of entry.of)
            (map plain_token entry.word) entry.weight entry.pieces entry.table →
            AreKnown g self.new }
    {
        self.entries.push(entry).is_ok()
    }

    /// Counts an entry of so many bytes, with so many entries of a table.
    fn count(&mut self, bytes: usize, taken: u32)
        ensures { self.new.entries ≡ self.old.entries }
    {
        self.held = usize::saturating_add(self.held, bytes);
        self.table_room = u32::saturating_sub(self.table_room, taken);
    }

    /// Makes the slot of a hash lead to the entry that comes next, and tells whether there is
    /// memory for it.
    fn lead(&mut self, alloc: Global, hash: u32) -> bool
        ensures { self.new.entries ≡ self.old.entries }
    {
        self.slots.add(alloc, hash).is_ok()
    }

    /// Remembers what a word weighs by its owner, with these pieces and this table, as far as there
    /// is memory for it.
    pub fn keep(
        &mut self,
        alloc: Global,
        of: Of,
        word: Tokens,
        weight: u32,
        pieces: Option<List<Piece>>,
        table: Option<Entries>,
    )
        ensures { (g : PlainDtd) → AreKnown g self.old →
            IsWeighedWord g (plain_of of) (map plain_token word) weight pieces table →
            AreKnown g self.new }
    {
        let bytes = bytes_for(word.as_slice(), &pieces);
        self.forget_if_full(bytes);
        let taken = entries_in(&table);
        if !self.lead(alloc, hash_of(of, word.as_slice())) {
            return;
        }
        let entry = KnownWeight {
            of,
            word,
            weight,
            pieces,
            table,
        };
        if !self.add(entry) {
            self.slots.keep_first(self.entries.len());
            return;
        }
        self.count(bytes, taken);
    }
}
