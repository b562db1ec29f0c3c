//! The files of the documents, by names that come as bytes.

ghost use Rattle.std.specs.Prelude.{◌≡◌, ◌≤◌, Contains, IfOk, vec_len};
ghost use Rattle.pv_io.specs.Causes.{MadeCalls};
ghost use Rattle.pv_io.specs.Files.{FetchTells, FetchCountsFault, ShelfNow, fetch_names};
ghost use Rattle.pv_many.specs.Archives.{untold};

use pv_io::{FetchError, FolderShelf, Shelf};
use std::alloc::{AllocError, Global};
use std::marker::Model;
use std::rt::Files;
use std::str;

/// Files by their names, any of which may be fetched.
pub trait Archive {
    /// What it tells of its files, how often it was asked, and how often it failed.
    ghost moment: { Self → ShelfNow };

    /// The bytes of a file of at most so many.
    fn fetch(&mut self, alloc: Global, name: &[u8], most: usize) -> Result<Vec<u8>, FetchError>
        ensures bound { IfOk result (λ v. vec_len v ≤ most) }
        ensures bytes { FetchTells (moment self.old).files name.now most result }
        ensures cause { FetchCountsFault (moment self.old).faults (moment self.new).faults result }
        ensures calls { MadeCalls 1 (moment self.old).calls (moment self.new).calls }
        ensures files { (moment self.new).files ≡ (moment self.old).files };
}

/// The machine's files, by their paths. A path that isn't UTF-8 has none.
#[derive(Drop)]
pub struct FolderArchive<'a, R: Files> {
    files: &'a R,
    calls: u64,
    faults: u64,
}

impl<'a, R: Files> Model for FolderArchive<'a, R> {
    ghost use Rattle.std.specs.Prelude.{None};
    ghost use Rattle.pv_io.specs.Files.{ShelfNow};

    ghost Value = { ShelfNow };

    ghost view = { λ s. record { files = None; calls = s.calls; faults = s.faults } };
}

impl<'a, R: Files> FolderArchive<'a, R> {
    /// These files, of which none was asked for yet.
    pub fn new(files: &'a R) -> FolderArchive<'a, R>
        ensures { result ≡ untold }
    {
        FolderArchive {
            files,
            calls: 0,
            faults: 0,
        }
    }
}

// Words of which the second names a file, as a shelf takes them.
fn words_for(alloc: Global, name: &str) -> Result<Vec<String>, AllocError>
    ensures { IfOk result (λ words. Contains (fetch_names words.items) name.now) }
{
    let mut words = Vec::new(alloc);
    words.push(String::new(alloc))?;
    words.push(String::from_str(alloc, name)?)?;
    Ok(words)
}

// The bytes of the file at this path, of at most so many.
fn fetch_path<R: Files>(
    files: &R,
    alloc: Global,
    name: &str,
    most: usize,
) -> Result<Vec<u8>, FetchError>
    ensures { IfOk result (λ v. vec_len v ≤ most) }
{
    let Ok(words) = words_for(alloc, name) else {
        return Err(FetchError::NoMemory);
    };
    let mut shelf = FolderShelf::new(files, &words);
    shelf.fetch(alloc, name, most)
}

// The bytes of the file of this name, if it is a path.
fn fetch_name<R: Files>(
    files: &R,
    alloc: Global,
    name: &[u8],
    most: usize,
) -> Result<Vec<u8>, FetchError>
    ensures { IfOk result (λ v. vec_len v ≤ most) }
{
    match str::from_utf8(name) {
        Ok(path) => fetch_path(files, alloc, path, most),
        Err(_) => Err(FetchError::Failed),
    }
}

impl<'a, R: Files> Archive for FolderArchive<'a, R> {
    ghost use Rattle.std.specs.Prelude.{None};

    ghost moment = { λ s. record { files = None; calls = s.calls; faults = s.faults } };

    fn fetch(&mut self, alloc: Global, name: &[u8], most: usize) -> Result<Vec<u8>, FetchError>
        ensures bound { IfOk result (λ v. vec_len v ≤ most) }
        ensures cause { FetchCountsFault self.old.faults self.new.faults result }
        ensures calls { MadeCalls 1 self.old.calls self.new.calls }
    {
        self.calls = self.calls.saturating_add(1);
        match fetch_name(self.files, alloc, name, most) {
            Ok(bytes) => Ok(bytes),
            Err(FetchError::TooLong) => Err(FetchError::TooLong),
            Err(FetchError::NoMemory) => Err(FetchError::NoMemory),
            Err(FetchError::Failed) => {
                self.faults = self.faults.saturating_add(1);
                Err(FetchError::Failed)
            }
        }
    }
}
