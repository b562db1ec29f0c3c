//! Shelves: where files come from.

ghost use Rattle.std.specs.Prelude.{◌≡◌, ◌≤◌, List, ℕ, IfOk, Contains, vec_len};
ghost use Rattle.pv_io.specs.Causes.{MadeCalls};
ghost use Rattle.pv_io.specs.Files.{FetchTells, FetchCountsFault, ShelfNow};

use std::alloc::Global;
use thiserror::Error;

/// Why a file was not fetched. Only `Failed` counts a fault of the shelf.
#[derive(Clone, Copy, Debug, PartialEq, Eq, Error)]
pub enum FetchError {
    /// The file couldn't be opened or read.
    #[error("the file couldn't be read")]
    Failed,
    /// The file has more bytes than were asked for.
    #[error("the file is too long")]
    TooLong,
    /// There was too little memory; nothing is known of the file.
    #[error("out of memory")]
    NoMemory,
}

/// Where files come from: whole files, each by its name, with a count of the calls and of those
/// that failed.
pub trait Shelf {
    /// The names that may be fetched.
    ghost names: { Self → List (List ℕ) };

    /// What it tells of its files, how often it was asked, and how often it failed.
    ghost moment: { Self → ShelfNow };

    /// The bytes of the file of this name, which are at most `most`. It is `TooLong` where there
    /// are more.
    fn fetch(&mut self, alloc: Global, name: &str, most: usize) -> Result<Vec<u8>, FetchError>
        requires { Contains (names self.old) name.now }
        ensures bound { IfOk result (λ v. vec_len v ≤ most) }
        ensures bytes { FetchTells (moment self.old).files name.now most result }
        ensures cause { FetchCountsFault (moment self.old).faults (moment self.new).faults result }
        ensures calls { MadeCalls 1 (moment self.old).calls (moment self.new).calls }
        ensures names { names self.new ≡ names self.old }
        ensures files { (moment self.new).files ≡ (moment self.old).files };
}
