//! Expands a file.

ghost use Rattle.std.specs.Prelude.{◌≡◌, true, IfOk, IfErr};
ghost use Rattle.pv_params.specs.Meaning.{Expansion, Expands, expanded, faulty};
ghost use Rattle.pv_params.specs.ItemReading.{front_of};
ghost use Rattle.pv_params.specs.Spelling.{IsBehindTextDecl, HasHead};
ghost use Rattle.pv_params.specs.Laws.{HasNothingToExpand};
ghost use Rattle.pv_params.specs.OpenTexts.{LeadToExpansion, plain_so_far, stacked};
ghost use Rattle.pv_params.specs.Answers.{Tells, Answers};

use crate::entities::Entities;
use crate::errors::ParamError;
use crate::fronts::before;
use crate::names::NamesBeingRead;
use crate::open_texts::OpenText;
use crate::reading::TextStack;
use crate::state::{State, TextEnding};
use crate::text_mode::TextMode;
use pv_chars::NoMemory;
use pv_chars::declarations::after_text_decl;
use pv_chars::delimiters::{up_to, up_to_byte};
use pv_chars::scan::after_byte_order_mark;
use std::alloc::Global;

// What stands after the text declaration, where there is one.
fn after_declaration(bytes: &[u8]) -> &[u8]
    ensures { IsBehindTextDecl bytes.now result.now }
{
    match after_text_decl(bytes) {
        Some(rest) => rest,
        None => bytes,
    }
}

// What stands after the byte order mark and the text declaration.
fn after_head(bytes: &[u8]) -> &[u8]
    ensures { HasHead bytes.now (front_of bytes.now result.now) result.now }
{
    after_declaration(after_byte_order_mark(bytes))
}

// The file, of which nothing is read yet but its head.
fn open_file(alloc: Global, bytes: &[u8]) -> Result<TextStack, NoMemory>
    ensures { IfOk result (λ reading. LeadToExpansion bytes.now (stacked reading.texts.items)
        reading.names (plain_so_far reading.so_far)) }
{
    let rest = after_head(bytes);
    let result = Vec::from_slice(alloc, before(bytes, rest))?;
    let file = OpenText {
        mode: TextMode::File(false),
        of_entity: false,
        text: Vec::from_slice(alloc, rest)?,
        left: rest.len(),
        ending: TextEnding::Nothing,
    };
    let mut texts = Vec::new(alloc);
    texts.push(file)?;
    Ok(TextStack {
        texts,
        names: NamesBeingRead::new(alloc),
        so_far: State {
            declared: Entities::new(alloc),
            references: 0,
            placed: 0,
            result,
        },
    })
}

fn expanded_file(alloc: Global, bytes: &[u8]) -> Result<Vec<u8>, ParamError>
    ensures read { IfOk result (λ text. Expands bytes.now (expanded text.items)) }
    ensures refused { IfErr result (Tells (λ fault. Expands bytes.now (faulty fault))) }
{
    let mut reading = open_file(alloc, bytes)?;
    'steps: while reading.step(alloc)? {}
    let TextStack {
        texts: _,
        names: _,
        so_far,
    } = reading;
    Ok(so_far.result)
}

// Whether the file has neither `%` nor `<![`.
fn has_nothing_to_expand(bytes: &[u8]) -> bool
    ensures { result ≡ true → HasNothingToExpand bytes.now }
{
    up_to_byte(b'%', bytes).is_none() && up_to(b"<![", bytes).is_none()
}

fn expanded_or_unchanged(alloc: Global, bytes: &[u8]) -> Result<Vec<u8>, ParamError>
    ensures read { IfOk result (λ text. Expands bytes.now (expanded text.items)) }
    ensures refused { IfErr result (Tells (λ fault. Expands bytes.now (faulty fault))) }
{
    if has_nothing_to_expand(bytes) {
        return Ok(Vec::from_slice(alloc, bytes)?);
    }
    expanded_file(alloc, bytes)
}

/// The file of these bytes with its internal parameter entities put in place (XML 1.0, sections
/// 4.1, 4.2, 4.4 and 4.5, as `docs/FORMATS.md` says which), or its first fault.
pub fn expand(alloc: Global, bytes: &[u8]) -> Result<Vec<u8>, ParamError>
    ensures read { IfOk result (λ text. Expands bytes.now (expanded text.items)) }
    ensures refused { IfErr result (Tells (λ fault. Expands bytes.now (faulty fault))) }
    ensures exactly { (e : Expansion) → Expands bytes.now e → Answers e result }
{
    expanded_or_unchanged(alloc, bytes)
}
