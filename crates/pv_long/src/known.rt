//! Bounds that are remembered, by owner and word, with the pieces of completions.

ghost use Rattle.std.specs.Prelude.{◌≡◌, IsTrue};

use crate::making::classes::mix_in;
use pv_missing::Of;
use pv_model::Token;
use pv_tree::Tokens;
use pv_write::Piece;
use std::alloc::Global;
use std::collections::HashMap;

/// The most bytes that entries take, with their words and pieces.
const MAX_BYTES: usize = 64_000_000;

/// The bytes that an entry takes beside its tokens and pieces: its own, as many in reserve, and
/// what the allocator takes for its word.
const ENTRY_BYTES: usize = 256;

/// The bytes of a token, and of a piece.
const TOKEN_BYTES: usize = 8;

/// How many elements are missing at least in a list of this word by this owner, and the pieces of a
/// completion, none where more than 1,000,000 are.
#[derive(Drop)]
pub struct KnownBound {
    pub of: Of,
    pub word: Tokens,
    pub least: u32,
    pub pieces: Vec<Piece>,
}

/// Bounds that are remembered. A number stands for the last entry whose owner and word have a hash.
/// Where there are too many, all are forgotten.
#[derive(Drop)]
pub struct KnownBounds {
    pub entries: Vec<KnownBound>,
    numbers: HashMap<u64, usize>,
    held: usize,
}

fn number_of(token: Token) -> u32 {
    match token {
        Token::Name(id) => id.0.wrapping_add(2),
        Token::Text => 0,
        Token::Other => 1,
    }
}

// The hash of an owner and a word.
fn hash_of(of: Of, word: &[Token]) -> u64 {
    let mut hash = match of {
        Of::Root(id) => mix_in(1, id.0),
        Of::Elem(id) => mix_in(2, id.0),
    };
    for token in word {
        hash = mix_in(hash, number_of(*token));
    }
    hash
}

fn is_same_token(token: Token, other: Token) -> bool
    ensures { IsTrue result → token ≡ other }
{
    token == other
}

// Whether two words are the same.
fn are_same(word: &[Token], other: &[Token]) -> bool
    ensures { IsTrue result → word.now ≡ other.now }
{
    if word.len() != other.len() {
        return false;
    }
    for number in 0..word.len() {
        if !is_same_token(word[number], other[number]) {
            return false;
        }
    }
    true
}

fn is_same(of: Of, other: Of) -> bool
    ensures { IsTrue result → of ≡ other }
{
    of == other
}

// The bytes that an entry of so many tokens and pieces takes.
fn bytes_for(tokens: usize, pieces: usize) -> usize {
    let count = usize::saturating_add(tokens, pieces);
    usize::saturating_add(usize::saturating_mul(count, TOKEN_BYTES), ENTRY_BYTES)
}

impl KnownBound {
    ghost use Rattle.std.specs.Prelude.{◌≡◌, IsTrue};

    // Whether this is the bound of a word by its owner.
    fn is_of(&self, of: Of, word: &[Token]) -> bool
        ensures { IsTrue result → (self.now.of ≡ of) × (self.now.word ≡ word.now) }
    {
        is_same(self.of, of) && are_same(self.word.as_slice(), word)
    }
}

impl KnownBounds {
    ghost use Rattle.std.specs.Prelude.{◌≡◌, IfSome, map};
    ghost use Rattle.pv_dtd.specs.Plain.{PlainDtd};
    ghost use Rattle.pv_model.specs.PlainForms.{plain_token};
    ghost use Rattle.pv_long.specs.KnownBounds.{AreWordBounds, IsWordBound};

    /// No bound is known.
    pub fn none(alloc: Global) -> KnownBounds
        ensures { (g : PlainDtd) → AreWordBounds g result }
    {
        KnownBounds {
            entries: Vec::new(alloc),
            numbers: HashMap::new(alloc),
            held: 0,
        }
    }

    // The number of the entry that an owner and a word lead to.
    fn number(&self, of: Of, word: &[Token]) -> Option<usize> {
        let hash = hash_of(of, word);
        self.numbers.get(&hash).copied()
    }

    /// What is known of a word by its owner.
    pub fn find(&self, of: Of, word: &[Token]) -> Option<&KnownBound>
        ensures { IfSome result (λ entry. (g : PlainDtd) → AreWordBounds g self.now →
            IsWordBound g of (map plain_token word.now) entry.now.least) }
    {
        let number = self.number(of, word)?;
        let entry = self.entries.get(number)?;
        if entry.is_of(of, word) {
            return Some(entry);
        }
        None
    }

    /// Whether no bound is known.
    pub fn is_empty(&self) -> bool {
        self.entries.is_empty()
    }

    /// Forgets all bounds, and gives back their memory.
    pub fn forget(&mut self, alloc: Global)
        ensures { (g : PlainDtd) → AreWordBounds g self.new }
    {
        self.entries = Vec::new(alloc);
        self.numbers = HashMap::new(alloc);
        self.held = 0;
    }

    // Forgets all bounds, where there is no room for so many bytes more.
    fn forget_if_full(&mut self, alloc: Global, bytes: usize)
        ensures { (g : PlainDtd) → AreWordBounds g self.old → AreWordBounds g self.new }
    {
        if usize::saturating_add(self.held, bytes) <= MAX_BYTES {
            return;
        }
        self.forget(alloc);
    }

    // Adds an entry, and tells whether there is memory for it.
    fn add(&mut self, entry: KnownBound) -> bool
        ensures { (g : PlainDtd) → AreWordBounds g self.old →
            IsWordBound g entry.of (map plain_token entry.word) entry.least →
            AreWordBounds g self.new }
    {
        self.entries.push(entry).is_ok()
    }

    // Makes a hash lead to an entry of so many bytes, as far as there is memory for it.
    fn lead(&mut self, hash: u64, number: usize, bytes: usize)
        ensures { self.new.entries ≡ self.old.entries }
    {
        self.held = usize::saturating_add(self.held, bytes);
        let _led = self.numbers.insert(hash, number).is_ok();
    }

    /// Remembers a bound of a word by its owner, with the pieces of a completion, as far as there
    /// is memory for it.
    pub fn keep(&mut self, alloc: Global, of: Of, word: Tokens, least: u32, pieces: &[Piece])
        ensures { (g : PlainDtd) → AreWordBounds g self.old →
            IsWordBound g of (map plain_token word) least → AreWordBounds g self.new }
    {
        let Ok(pieces) = pieces.to_vec(alloc) else {
            return;
        };
        let bytes = bytes_for(word.as_slice().len(), pieces.len());
        self.forget_if_full(alloc, bytes);
        let hash = hash_of(of, word.as_slice());
        let number = self.entries.len();
        let entry = KnownBound {
            of,
            word,
            least,
            pieces,
        };
        if !self.add(entry) {
            return;
        }
        self.lead(hash, number, bytes);
    }
}
