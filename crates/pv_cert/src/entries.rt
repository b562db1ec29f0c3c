//! The entries of a table, read from the front of some bytes.

ghost use Rattle.std.specs.Prelude.{◌≡◌, ◌≢◌, ◌<◌, ◌∷◌, ℕ, List, length, IfSome, MatchOption};
ghost use Rattle.pv_rules.specs.PlainForms.{plain_site};
ghost use Rattle.pv_rules.specs.declared.sites.Site.{Site};
ghost use Rattle.pv_tables.specs.Tables.{site_number};
ghost use Rattle.pv_tables.specs.declared.tables.Entry.{Entry};
ghost use Rattle.pv_cert.specs.Fronts.{Begins, BeginsNone, IsKind, IsSpanThen};
ghost use Rattle.pv_cert.specs.Lines.{entry_line};

use pv_model::NameId;
use pv_rules::{MAX_MISSING, Site};
use pv_tables::Entry;
use pv_words::{last_number, next_number};

// Where a span begins and ends, and a value, before a LF, and what stands after that.
fn span_and_value(bytes: &[u8]) -> Option<(u32, u32, u32, &[u8])>
    ensures { MatchOption result
        ((from to value : ℕ) (rest : List ℕ) → IsSpanThen bytes.now from to value rest → ⊥)
        (λ r. IsSpanThen bytes.now r.0 r.1 r.2 r.3.now) }
{
    let (from, behind_from) = next_number(bytes)?;
    let (to, behind_to) = next_number(behind_from)?;
    let (value, rest) = last_number(behind_to)?;
    Some((from, to, value, rest))
}

/// The site of a kind, by its letter and the number of the name or part.
pub fn site_of(letter: u8, number: u32) -> Option<Site>
    ensures { MatchOption result ((site : Site) → IsKind letter site → ⊥)
        (λ site. IsKind letter site × (site_number (plain_site site) ≡ number)) }
{
    match letter {
        b'c' => Some(Site::Content(NameId(number))),
        b'n' => Some(Site::Name(NameId(number))),
        b'p' => Some(Site::Part(number)),
        b's' => Some(Site::Rest(number)),
        _ => None,
    }
}

/// The letter before a blank at the front, and what stands after the blank.
pub fn letter_at(line: &[u8]) -> Option<(u8, &[u8])>
    ensures { MatchOption result
        ((letter : ℕ) (rest : List ℕ) → line.now ≢ letter ∷ 32 ∷ rest)
        (λ r. line.now ≡ r.0 ∷ 32 ∷ r.1.now) }
{
    match line {
        [letter, b' ', rest @ ..] => Some((*letter, rest)),
        _ => None,
    }
}

/// The entry at the front, and what stands after it.
pub fn entry_at(bytes: &[u8]) -> Option<(Entry, &[u8])>
    ensures entry { MatchOption result (BeginsNone entry_line bytes.now)
        (λ r. Begins bytes.now (entry_line r.0) r.1.now) }
    ensures within { IfSome result (λ r. length r.1.now < length bytes.now) }
{
    let (letter, behind_kind) = letter_at(bytes)?;
    let (number, behind_number) = next_number(behind_kind)?;
    let site = site_of(letter, number)?;
    let (from, to, value, rest) = span_and_value(behind_number)?;
    if MAX_MISSING < value {
        return None;
    }
    let read = Entry {
        site,
        from,
        to,
        value,
    };
    Some((read, rest))
}
