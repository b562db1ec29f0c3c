//! What was read so far.

ghost use Rattle.std.specs.Prelude.{◌≡◌, false, [], ◌∷◌, OnOk, encode_utf8};
ghost use Rattle.pv_params.specs.Meaning.{passes_limit, put, entered, finish, with_no_result};
ghost use Rattle.pv_params.specs.Meaning.{blank};
ghost use Rattle.pv_params.specs.PlainForms.{plain_mode};
ghost use Rattle.pv_params.specs.OpenTexts.{plain_so_far, plain_ending};

use crate::entities::Entities;
use crate::text_mode::TextMode;
use pv_chars::NoMemory;
use std::alloc::Global;
use std::mem;

/// The most references that are read.
const MAX_REFERENCES: u64 = 65_536;

/// The most bytes that the texts put in place have together.
const MAX_PLACED: u64 = 16_777_216;

/// What is done at the end of a text that was read within another.
#[derive(Drop)]
pub enum TextEnding {
    /// Nothing.
    Nothing,
    /// One space is put.
    Space,
    /// `>` is put.
    Bracket,
    /// The result is the text of the entity of this name, and goes on as it was before.
    Declares(Vec<u8>, Vec<u8>),
}

/// The entities that are declared, how many references were read, how many bytes their texts have
/// together, and the result.
#[derive(Drop)]
pub struct State {
    pub declared: Entities,
    pub references: u64,
    pub placed: u64,
    pub result: Vec<u8>,
}

// What is put before a text, and after it.
fn blank(mode: TextMode) -> &'static [u8]
    ensures { result.now ≡ blank (plain_mode mode) }
{
    match mode {
        TextMode::Value => b"",
        TextMode::File(_) => b" ",
        TextMode::Between => b" ",
        TextMode::Inside => b" ",
    }
}

impl State {
    /// Puts bytes into the result.
    pub fn put(&mut self, bytes: &[u8]) -> Result<(), NoMemory>
        ensures { OnOk result (plain_so_far self.new ≡ put bytes.now (plain_so_far self.old)) }
    {
        self.result.extend_from_slice(bytes)?;
        Ok(())
    }

    /// Puts one byte.
    pub fn put_byte(&mut self, b: u8) -> Result<(), NoMemory>
        ensures { OnOk result (plain_so_far self.new ≡ put (b ∷ []) (plain_so_far self.old)) }
    {
        self.result.push(b)?;
        Ok(())
    }

    /// Puts a character, in UTF-8.
    pub fn put_character(&mut self, c: char) -> Result<(), NoMemory>
        ensures { OnOk result
            (plain_so_far self.new ≡ put (encode_utf8 c) (plain_so_far self.old)) }
    {
        let mut room = [0; 4];
        let text = c.encode_utf8(&mut room);
        self.put(text.as_bytes())
    }

    /// Whether one more reference, to this text, is too much.
    pub fn passes_limit(&self, text: &[u8]) -> bool
        ensures { result ≡ passes_limit (plain_so_far self.now) text.now }
    {
        self.references >= MAX_REFERENCES
            || self.placed.saturating_add(text.len() as u64) > MAX_PLACED
    }

    /// Counts a reference to this text, and puts what stands before it.
    pub fn enter(&mut self, mode: TextMode, text: &[u8]) -> Result<(), NoMemory>
        requires { passes_limit (plain_so_far self.old) text.now ≡ false }
        ensures { OnOk result (plain_so_far self.new ≡
            entered (plain_mode mode) text.now (plain_so_far self.old)) }
    {
        self.references += 1;
        self.placed += text.len() as u64;
        self.put(blank(mode))
    }

    /// Takes the result out.
    pub fn take_result(&mut self, alloc: Global) -> Vec<u8>
        ensures taken { result.items ≡ self.old.result.items }
        ensures after { plain_so_far self.new ≡ with_no_result (plain_so_far self.old) }
    {
        mem::replace(&mut self.result, Vec::new(alloc))
    }

    /// Does what is done at the end of a text.
    pub fn finish(&mut self, ending: TextEnding) -> Result<(), NoMemory>
        ensures { OnOk result
            (plain_so_far self.new ≡ finish (plain_ending ending) (plain_so_far self.old)) }
    {
        match ending {
            TextEnding::Nothing => Ok(()),
            TextEnding::Space => self.put(b" "),
            TextEnding::Bracket => self.put(b">"),
            TextEnding::Declares(name, result) => {
                let text = mem::replace(&mut self.result, result);
                self.declared.declare(name, text)
            }
        }
    }
}
