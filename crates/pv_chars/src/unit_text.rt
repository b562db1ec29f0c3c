//! Texts, cut into units.

ghost use Rattle.std.specs.Prelude.{◌≡◌, ◌≢◌, ◌<◌, ◌≤◌, ◌-◌, ◌↔◌, ◌⊎◌, [], ◌++◌, length, take};
ghost use Rattle.std.specs.Prelude.{drop, not, IsTrue, IfOk, MatchResult, Ok, Err};
ghost use Rattle.std.specs.List.{list_all, list_any};
ghost use Rattle.pv_chars.specs.Spaces.{is_space};
ghost use Rattle.pv_chars.specs.Texts.{joined, has_data};
ghost use Rattle.pv_chars.specs.declared.errors.TextError.{TextError};
ghost use Rattle.pv_chars.specs.References.{IsPredefined};
ghost use Rattle.pv_chars.specs.Units.{HasTextFault, HasUnitFault, BeginsAnyUnit, BeginsSomeUnit};
ghost use Rattle.pv_chars.specs.Units.{BeginsAmpersand, TextRestMeans, MeansUnits, TextMeans};
ghost use Rattle.pv_chars.specs.Units.{is_simple, is_lone, units_in, AllUnits, IsCut};

use crate::characters::is_char;
use crate::references::{after_char_ref, entity_ref_at};
use crate::scan::{after_bytes, is_space};
use crate::unit_places::behind_units;
use crate::utf8::char_at;
use crate::{NoMemory, TextError};
use std::alloc::Global;
use std::marker::Model;

const AMPERSAND: u32 = 0x26;

const LESS_THAN: u32 = 0x3C;

/// Whether it is one of the five names that need no declaration (XML 1.0, section 4.6).
///
/// ```rust
/// assert!(rt; is_predefined(b"lt") && !is_predefined(b"nbsp"));
/// ```
pub fn is_predefined(name: &[u8]) -> bool
    ensures { IsTrue result ↔ IsPredefined name.now }
{
    name == b"lt".as_slice()
        || name == b"gt".as_slice()
        || name == b"amp".as_slice()
        || name == b"apos".as_slice()
        || name == b"quot".as_slice()
}

fn after_reference(bytes: &[u8], at: usize) -> Result<&[u8], TextError>
    requires { BeginsAmpersand bytes.now }
    ensures { MatchResult result (λ r. BeginsAnyUnit bytes.now r.now)
        (λ e. HasUnitFault e at bytes.now) }
{
    if let Some(rest) = after_char_ref(bytes) {
        return Ok(rest);
    }
    let Some((name, rest)) = entity_ref_at(bytes) else {
        return Err(TextError::BadReference(at));
    };
    if !is_predefined(name) {
        return Err(TextError::Entity(at));
    }
    Ok(rest)
}

// What stands after the unit at the front, which may begin `]]>`.
fn after_any_unit(bytes: &[u8], at: usize) -> Result<&[u8], TextError>
    requires { bytes.now ≢ [] }
    ensures { MatchResult result (λ r. BeginsAnyUnit bytes.now r.now)
        (λ e. HasUnitFault e at bytes.now) }
{
    let Some((c, rest)) = char_at(bytes) else {
        return Err(TextError::BadChar(at));
    };
    if c == AMPERSAND {
        return after_reference(bytes, at);
    }
    if c == LESS_THAN {
        return Err(TextError::BadChar(at));
    }
    if !is_char(c) {
        return Err(TextError::BadChar(at));
    }
    Ok(rest)
}

// What stands after the unit at the front, by a look at all of it.
fn after_other_unit(bytes: &[u8], at: usize) -> Result<&[u8], TextError>
    requires { bytes.now ≢ [] }
    ensures { MatchResult result (λ r. BeginsSomeUnit bytes.now r.now)
        (λ e. HasTextFault e at bytes.now) }
{
    if after_bytes(b"]]>", bytes).is_some() {
        return Err(TextError::CloseMark(at));
    }
    after_any_unit(bytes, at)
}

// A byte that is a unit whatever stands after it.
fn is_lone(b: u8) -> bool
    ensures { result ≡ is_lone b }
{
    is_simple(b) && b != b']'
}

// What stands after the unit at the front.
fn after_unit(bytes: &[u8], at: usize) -> Result<&[u8], TextError>
    requires { bytes.now ≢ [] }
    ensures { MatchResult result
        (λ r. BeginsSomeUnit bytes.now r.now)
        (λ e. HasTextFault e at bytes.now) }
{
    match bytes {
        [b, rest @ ..] if is_lone(*b) => Ok(rest),
        _ => after_other_unit(bytes, at),
    }
}

// How many units the bytes are.
fn count_units(bytes: &[u8]) -> Result<usize, TextError>
    ensures { MatchResult result (MeansUnits bytes.now) (λ e. TextRestMeans [] bytes.now (Err e)) }
{
    let mut rest = bytes;
    let mut count = 0;
    'units: while !rest.is_empty() {
        rest = after_unit(rest, bytes.len() - rest.len())?;
        count += 1;
    }
    Ok(count)
}

fn is_simple(b: u8) -> bool
    ensures { result ≡ is_simple b }
{
    (b == b'\t' || b == b'\n' || b == b'\r' || (b >= b' ' && b < 128))
        && b != b'<'
        && b != b'&'
        && b != b'>'
}

/// Whether each byte is a character that stands for itself and isn't `>`. All are looked at, so
/// that many can be at a time.
///
/// ```rust
/// assert!(rt; are_simple(b"plain") && !are_simple(b"a>b"));
/// ```
pub fn are_simple(bytes: &[u8]) -> bool
    ensures { result ≡ list_all is_simple bytes.now }
{
    let mut all = true;
    for b in bytes {
        all &= is_simple(*b);
    }
    all
}

/// A text, seen as the list of its units. It has at least one.
///
/// A unit is one literal character, or one whole reference: to a Char by its code point, or to one
/// of the five predefined names. It is white where it is a literal space, tab, CR or LF, and else
/// data.
///
/// ```rust
/// // test_layers: texts
/// let units = text_units(alloc, "a &#32;é".as_bytes())?; // `a`, a space, `&#32;` and `é`
/// assert!(rt; units.len() == 4 && units.has_data());
/// ```
#[derive(Debug, Drop)]
pub struct Units {
    bytes: Vec<u8>,
    count: usize,
}

impl Model for Units {
    ghost use Rattle.std.specs.Prelude.{List, ℕ};
    ghost use Rattle.pv_chars.specs.Units.{units_in, IsCut};

    ghost Value = { List (List ℕ) };

    ghost view = { λ u. units_in u.bytes.items };

    ghost invariant = { λ u. IsCut u.bytes.items u.count };
}

impl Units {
    /// How many units the text has, at least one; a reference is one unit.
    ///
    /// ```rust
    /// assert!(rt; text_units(alloc, b"a&lt;b")?.len() == 3);
    /// ```
    pub fn len(&self) -> usize
        ensures value { result ≡ length self.now }
        ensures some { 0 < result }
    {
        self.count
    }

    /// The bytes of the text: those of its units, joined.
    ///
    /// ```rust
    /// assert!(rt; text_units(alloc, b"a&lt;b")?.bytes() == b"a&lt;b".as_slice());
    /// ```
    pub fn bytes(&self) -> &[u8]
        ensures value { result.now ≡ joined self.now }
        ensures units { units_in result.now ≡ self.now }
        ensures legal { AllUnits self.now }
    {
        self.bytes.as_slice()
    }

    /// Whether a data unit is among them.
    ///
    /// ```rust
    /// assert!(rt; !text_units(alloc, b" \t\r\n")?.has_data()); // test_layers: texts
    /// assert!(rt; text_units(alloc, b"&#32;")?.has_data());
    /// ```
    pub fn has_data(&self) -> bool
        ensures { result ≡ has_data self.now }
    {
        has_black(self.bytes.as_slice())
    }

    /// A text of the same units.
    ///
    /// ```rust
    /// let units = text_units(alloc, b"a&lt;b")?;
    /// assert!(rt; units.copy(alloc)?.bytes() == units.bytes());
    /// ```
    pub fn copy(&self, alloc: Global) -> Result<Units, NoMemory>
        ensures { IfOk result (λ u. u ≡ self.now) }
    {
        Ok(Units {
            bytes: Vec::from_slice(alloc, self.bytes.as_slice())?,
            count: self.count,
        })
    }

    /// The units from number `from` up to but not including `to`.
    ///
    /// ```rust
    /// let units = text_units(alloc, "a &#32;é".as_bytes())?; // test_layers: parts_of_texts
    /// assert!(rt; units.len() == 4);
    /// assert!(rt; units.part(alloc, 1, 3)?.bytes() == b" &#32;".as_slice());
    /// ```
    pub fn part(&self, alloc: Global, from: usize, to: usize) -> Result<Units, NoMemory>
        requires some { from < to }
        requires within { to ≤ length self.now }
        ensures { IfOk result (λ u. u ≡ take (to - from) (drop from self.now)) }
    {
        let bytes = self.bytes.as_slice();
        let start = behind_units(bytes, self.count, from);
        first_units(alloc, start, self.count - from, to - from)
    }

    /// The units before number `at`, and the others.
    ///
    /// ```rust
    /// let units = text_units(alloc, "a &#32;é".as_bytes())?; // test_layers: halves_of_texts
    /// assert!(rt; units.len() == 4);
    /// let (front, back) = units.cut(alloc, 3)?;
    /// assert!(rt; front.bytes() == b"a &#32;".as_slice() && back.bytes() == "é".as_bytes());
    /// ```
    pub fn cut(&self, alloc: Global, at: usize) -> Result<(Units, Units), NoMemory>
        requires some { 0 < at }
        requires within { at < length self.now }
        ensures front { IfOk result (λ parts. parts.0 ≡ take at self.now) }
        ensures back { IfOk result (λ parts. parts.1 ≡ drop at self.now) }
    {
        let bytes = self.bytes.as_slice();
        let rest = behind_units(bytes, self.count, at);
        let front = bytes.split_at(bytes.len() - rest.len()).0;
        let before = Units {
            bytes: Vec::from_slice(alloc, front)?,
            count: at,
        };
        let behind = Units {
            bytes: Vec::from_slice(alloc, rest)?,
            count: self.count - at,
        };
        Ok((before, behind))
    }

    /// The units of both, this text's first.
    ///
    /// ```rust
    /// let (front, back) = (text_units(alloc, b"a")?, text_units(alloc, b"&lt;")?);
    /// let both = front.joined(alloc, &back)?;
    /// assert!(rt; both.len() == 2 && both.bytes() == b"a&lt;".as_slice());
    /// ```
    pub fn joined(&self, alloc: Global, other: &Units) -> Result<Units, NoMemory>
        ensures { IfOk result (λ u. u ≡ self.now ++ other.now) }
    {
        let mut bytes = Vec::with_capacity(alloc, self.bytes.len() + other.bytes.len())?;
        bytes.extend_from_slice(self.bytes.as_slice())?;
        bytes.extend_from_slice(other.bytes.as_slice())?;
        Ok(Units {
            bytes,
            count: self.count + other.count,
        })
    }
}

// Whether a character that isn't white is among them.
fn has_black(bytes: &[u8]) -> bool
    ensures { result ≡ list_any (λ b. not (is_space b)) bytes.now }
{
    bytes.iter().any(|b| !is_space(*b))
}

// So many units at the front of a text that has `all`.
fn first_units(alloc: Global, bytes: &[u8], all: usize, count: usize) -> Result<Units, NoMemory>
    requires units { IsCut bytes.now all }
    requires some { 0 < count }
    requires within { count ≤ all }
    ensures { IfOk result (λ u. u ≡ take count (units_in bytes.now)) }
{
    let rest = behind_units(bytes, all, count);
    let front = bytes.split_at(bytes.len() - rest.len()).0;
    Ok(Units {
        bytes: Vec::from_slice(alloc, front)?,
        count,
    })
}

// How many units a text has, or its first fault.
fn text_count(bytes: &[u8]) -> Result<usize, TextError>
    ensures { MatchResult result (MeansUnits bytes.now) (λ e. TextRestMeans [] bytes.now (Err e)) }
{
    if are_simple(bytes) {
        return Ok(bytes.len());
    }
    count_units(bytes)
}

/// The units of a text, or the first fault from the left.
///
/// ```rust
/// assert!(rt; text_units(alloc, b"plain")?.len() == 5); // test_layers: texts
/// assert!(rt; matches!(text_units(alloc, b"a]]>b"), Err(TextError::CloseMark(1))));
/// ```
pub fn text_units(alloc: Global, bytes: &[u8]) -> Result<Units, TextError>
    ensures { MatchResult result
        (λ u. TextMeans bytes.now (Ok u))
        (λ e. (e ≡ TextError.NoMemory) ⊎ TextMeans bytes.now (Err e)) }
{
    if bytes.is_empty() {
        return Err(TextError::Empty);
    }
    let count = text_count(bytes)?;
    let Ok(bytes) = Vec::from_slice(alloc, bytes) else {
        return Err(TextError::NoMemory);
    };
    Ok(Units { bytes, count })
}
