//! Verdicts that are remembered, by owner and word, so that lists that are alike are judged once.

ghost use Rattle.std.specs.Prelude.{◌≡◌, IsTrue};

use crate::words::productive_model;
use pv_missing::Of;
use pv_model::{ContentModel, Part, Token};
use pv_productive::Grammar;
use pv_tree::Verdict;
use std::alloc::Global;

/// How many slots there are, a power of two.
const SLOTS: usize = 4_096;

/// The most entries: where there would be more, all are forgotten.
const MAX_ENTRIES: usize = 4_096;

/// The most tokens of a word that is remembered.
const MAX_TOKENS: usize = 64;

/// So many parts side by side make a model large: to find a word Valid by it costs more than to
/// look the word up.
const LARGE_MODEL: usize = 1_024;

/// The verdict of a word by its owner, and by whether the list has no kids of any kind.
#[derive(Drop)]
pub struct KnownVerdict {
    pub of: Of,
    pub word: Vec<Token>,
    pub is_bare: bool,
    pub verdict: Verdict,
}

/// Verdicts that are remembered. A slot has the number of the last entry that was put there.
#[derive(Drop)]
pub struct KnownVerdicts {
    pub entries: Vec<KnownVerdict>,
    slots: Vec<u32>,
}

fn number_of(token: Token) -> u32 {
    match token {
        Token::Name(id) => id.0.wrapping_add(2),
        Token::Text => 0,
        Token::Other => 1,
    }
}

/// The slot of an owner and a word.
fn slot_of(of: Of, word: &[Token]) -> usize {
    let mut hash = match of {
        Of::Root(id) | Of::Elem(id) => id.0,
    };
    for token in word {
        hash = hash.wrapping_mul(40_503).wrapping_add(number_of(*token));
    }
    (hash.wrapping_mul(2_654_435_769) >> 20) as usize % SLOTS
}

fn is_same_token(token: Token, other: Token) -> bool
    ensures { IsTrue result → token ≡ other }
{
    token == other
}

/// Whether two words are the same.
fn are_same(word: &[Token], other: &[Token]) -> bool
    ensures { IsTrue result → word.now ≡ other.now }
{
    if word.len() != other.len() {
        return false;
    }
    for number in 0..word.len() {
        if !is_same_token(word[number], other[number]) {
            return false;
        }
    }
    true
}

fn is_same(of: Of, other: Of) -> bool
    ensures { IsTrue result → of ≡ other }
{
    of == other
}

/// Whether a particle, or what it repeats, has many parts side by side.
fn has_many_parts(part: &Part) -> bool {
    match part {
        Part::Seq(parts) | Part::Choice(parts) => parts.len() >= LARGE_MODEL,
        Part::Opt(part) | Part::Star(part) | Part::Plus(part) => match &**part {
            Part::Seq(parts) | Part::Choice(parts) => parts.len() >= LARGE_MODEL,
            _ => false,
        },
        Part::Name(_) => false,
    }
}

/// Whether the content model of an owner has many parts side by side.
fn has_large_model(grammar: &Grammar, of: Of) -> bool {
    let id = match of {
        Of::Root(id) | Of::Elem(id) => id,
    };
    let Some(model) = productive_model(grammar, id) else {
        return false;
    };
    match model.model() {
        ContentModel::Children(part) => has_many_parts(part),
        ContentModel::Empty | ContentModel::Any | ContentModel::Mixed(_) => false,
    }
}

/// Whether a word with this verdict is remembered: to find it costs more than to look it up.
pub fn is_worth(grammar: &Grammar, of: Of, word: &[Token], verdict: Verdict) -> bool {
    if word.len() > MAX_TOKENS {
        return false;
    }
    match verdict {
        Verdict::Possible => true,
        Verdict::Valid => has_large_model(grammar, of),
        Verdict::Impossible => false,
    }
}

impl KnownVerdict {
    ghost use Rattle.std.specs.Prelude.{◌≡◌, IsTrue};

    /// Whether this is the verdict of such a word by its owner.
    fn is_of(&self, of: Of, word: &[Token], is_bare: bool) -> bool
        ensures { IsTrue result → (self.now.of ≡ of) × (self.now.word.items ≡ word.now) ×
            (self.now.is_bare ≡ is_bare) }
    {
        self.is_bare == is_bare && is_same(self.of, of) && are_same(&self.word, word)
    }
}

impl KnownVerdicts {
    ghost use Rattle.std.specs.Prelude.{◌≡◌, IfSome, Some, map};
    ghost use Rattle.pv_dtd.specs.Plain.{PlainDtd};
    ghost use Rattle.pv_model.specs.PlainForms.{plain_token};
    ghost use Rattle.pv_missing.specs.PlainForms.{plain_of};
    ghost use Rattle.pv_check.specs.KnownVerdicts.{AreKnownVerdicts, IsKnownVerdict};
    ghost use Rattle.pv_check.specs.ListJudgements.{JudgesWord};
    ghost use Rattle.pv_check.specs.declared.widths.Widths.{Widths as HowWide};

    /// No verdict is known.
    pub fn none(alloc: Global) -> KnownVerdicts
        ensures { (s : HowWide) (g : PlainDtd) → AreKnownVerdicts s g result }
    {
        KnownVerdicts {
            entries: Vec::new(alloc),
            slots: Vec::new(alloc),
        }
    }

    /// The verdict of a word by its owner, where it is known.
    pub fn find(&self, of: Of, word: &[Token], is_bare: bool) -> Option<Verdict>
        ensures { IfSome result (λ verdict. (s : HowWide) (g : PlainDtd) →
            AreKnownVerdicts s g self.now → JudgesWord s g (Some (plain_of of))
            (map plain_token word.now) is_bare (Some verdict)) }
    {
        if self.entries.is_empty() || word.len() > MAX_TOKENS {
            return None;
        }
        let number = *self.slots.get(slot_of(of, word))?;
        let entry = self.entries.get(number as usize)?;
        if entry.is_of(of, word, is_bare) {
            Some(entry.verdict)
        } else {
            None
        }
    }

    /// Forgets all verdicts.
    fn forget(&mut self)
        ensures { (s : HowWide) (g : PlainDtd) → AreKnownVerdicts s g self.new }
    {
        self.entries.truncate(0);
    }

    /// Forgets all verdicts, where there is no room for one more.
    fn forget_if_full(&mut self)
        ensures { (s : HowWide) (g : PlainDtd) → AreKnownVerdicts s g self.old →
            AreKnownVerdicts s g self.new }
    {
        if self.entries.len() < MAX_ENTRIES {
            return;
        }
        self.forget();
    }

    /// Makes a slot lead to an entry, as far as there is memory for slots.
    fn lead(&mut self, alloc: Global, slot: usize, number: usize)
        ensures { self.new.entries ≡ self.old.entries }
    {
        if self.slots.is_empty() {
            let Ok(slots) = vec![in alloc; 0u32; SLOTS] else {
                return;
            };
            self.slots = slots;
        }
        if let Some(first) = self.slots.get_mut(slot) {
            *first = u32::try_from(number).unwrap_or(0);
        }
    }

    /// Adds an entry, and tells whether there is memory for it.
    fn add(&mut self, entry: KnownVerdict) -> bool
        ensures { (s : HowWide) (g : PlainDtd) → AreKnownVerdicts s g self.old →
            IsKnownVerdict s g entry → AreKnownVerdicts s g self.new }
    {
        self.entries.push(entry).is_ok()
    }

    /// Remembers the verdict of a word by its owner, as far as there is memory for it.
    pub fn keep(&mut self, alloc: Global, of: Of, word: &[Token], is_bare: bool, verdict: Verdict)
        ensures { (s : HowWide) (g : PlainDtd) → AreKnownVerdicts s g self.old →
            JudgesWord s g (Some (plain_of of)) (map plain_token word.now) is_bare
            (Some verdict) → AreKnownVerdicts s g self.new }
    {
        let Ok(copied) = Vec::from_slice(alloc, word) else {
            return;
        };
        self.forget_if_full();
        let number = self.entries.len();
        let entry = KnownVerdict {
            of,
            word: copied,
            is_bare,
            verdict,
        };
        if !self.add(entry) {
            return;
        }
        self.lead(alloc, slot_of(of, word), number);
    }
}
