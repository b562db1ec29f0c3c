//! One run of the program over objects in memory.

ghost use Rattle.std.specs.Prelude.{◌≡◌, ◌<◌, map, string_bytes, IfOk, length, vec_len};
ghost use Rattle.pv_io.specs.Files.{fetch_names};

use pv_chars::NoMemory;
use pv_cli::{Status, pvtag};
use pv_io::{MemShelf, MemSink, MemSource};
use pv_steps::Steps;
use std::alloc::{AllocError, Global};
use std::sync::ledger::{Blank, Ledger};
use std::test::Fail;
use std::thread::Threads;

/// How many bytes come or go at once.
#[derive(Clone, Copy)]
pub struct Piece {
    pub size: usize,
    ghost moves: { 0 < size },
}

/// What a run is given.
#[derive(Clone, Copy)]
pub struct Given<'g, 'a> {
    pub words: &'g [&'a str],
    /// Names and their texts.
    pub files: &'g [(&'a str, &'a str)],
    /// The bytes of the input.
    pub input: &'g [u8],
    pub piece: Piece,
    /// The most bytes that the output holds.
    pub room: usize,
    /// The numbers of the calls that fail.
    pub failing_fetches: &'g [u64],
    pub failing_fills: &'g [u64],
    pub failing_puts: &'g [u64],
}

impl<'g, 'a> Given<'g, 'a> {
    /// These words and files: no input, one byte at once, an output of 4,096 bytes, and no call
    /// that fails.
    pub fn plain(words: &'g [&'a str], files: &'g [(&'a str, &'a str)]) -> Given<'g, 'a> {
        Given {
            words,
            files,
            input: b"",
            piece: Piece { size: 1 },
            room: 4096,
            failing_fetches: &[],
            failing_fills: &[],
            failing_puts: &[],
        }
    }
}

fn texts_of(alloc: Global, words: &[&str]) -> Result<Vec<String>, AllocError>
    ensures { IfOk result (λ v. vec_len v ≡ length words.now) }
{
    let mut texts = Vec::new(alloc);
    for word in words {
        texts.push(String::from_str(alloc, *word)?)?;
    }
    Ok(texts)
}

// The words that name files: all but the first and the third.
fn names_of(alloc: Global, words: &[String]) -> Result<Vec<String>, AllocError>
    ensures { IfOk result (λ v. map (λ w. string_bytes w) v.items ≡ fetch_names words.now) }
{
    let mut names = Vec::new(alloc);
    if words.len() > 1 {
        names.push(words[1].clone()?)?;
    }
    if words.len() > 3 {
        for word in &words[3..] {
            names.push(word.clone()?)?;
        }
    }
    Ok(names)
}

fn files_of(alloc: Global, files: &[(&str, &str)]) -> Result<Vec<(String, Vec<u8>)>, AllocError> {
    let mut owned = Vec::new(alloc);
    for file in files {
        owned.push((
            String::from_str(alloc, file.0)?,
            file.1.as_bytes().to_vec(alloc)?,
        ))?;
    }
    Ok(owned)
}

// The files, to be fetched by the words that name files.
fn shelf_of(alloc: Global, words: &[String], given: &Given<'_, '_>) -> Result<MemShelf, NoMemory>
    ensures { IfOk result (λ shelf. shelf.names ≡ fetch_names words.now) }
{
    let names = names_of(alloc, words)?;
    let files = files_of(alloc, given.files)?;
    MemShelf::new(alloc, &names, &files, given.failing_fetches)
}

/// The status and the output of a run.
pub fn answer<L: Ledger, R: AllocGlobal + Threads + Sync>(
    rt: &R,
    given: &Given<'_, '_>,
    blank: Blank,
) -> Result<(Status, Vec<u8>), Fail>
    requires name { blank.name ≡ L.name }
    requires parts { blank.parts ≡ L.parts }
    requires some { 0 < L.parts }
{
    let alloc = rt.alloc();
    let words = texts_of(alloc, given.words)?;
    let mut shelf = match shelf_of(alloc, &words, given) {
        Ok(shelf) => shelf,
        Err(NoMemory) => return Err("no memory")?,
    };
    let mut input = MemSource::new(alloc, given.input, given.piece.size, given.failing_fills)
        .ok()
        .ok_or("no memory")?;
    let mut out = MemSink::new(alloc, given.room, given.piece.size, given.failing_puts)
        .ok()
        .ok_or("no memory")?;
    let mut steps = Steps::<L>::start(blank);
    let status = pvtag(
        rt, alloc, &words, &mut shelf, &mut input, &mut out, &mut steps,
    );
    Ok((status, out.written().to_vec(alloc)?))
}
