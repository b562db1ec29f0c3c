//! Devices of the machine: readers and writers of the standard library, and files by their paths.

ghost use Rattle.std.specs.Prelude.{◌≡◌, ◌≤◌, if◌then◌else◌, is_err, true, vec_len, IfOk};
ghost use Rattle.std.specs.Io.{ReadsAtMost};
ghost use Rattle.std.specs.Io.KnownBytes.{ReadConsumes, WriteAppends};
ghost use Rattle.pv_io.specs.Causes.{CountsFault, MadeCalls, TakesSome, WasAsked, empty_in};
ghost use Rattle.pv_io.specs.Causes.{never_asked, next_count};
ghost use Rattle.pv_io.specs.Files.{fetch_names, FetchCountsFault, is_fault};

use crate::shelf::{FetchError, Shelf};
use crate::sink::Sink;
use crate::source::{Failed, Source};
use std::alloc::Global;
use std::fs::OpenFile;
use std::io::{ErrorKind, Read, Write};
use std::marker::Model;
use std::rt::Files;
use std::{fs, io};

/// A source over any reader of the standard library, as standard input.
#[derive(Drop)]
pub struct ReadSource<R: Read> {
    reader: R,
    calls: u64,
    empty: u64,
    faults: u64,
}

impl<R: Read> ReadSource<R> {
    /// A source of what this reader has left.
    pub fn new(reader: R) -> ReadSource<R>
        ensures left { ⟦<ReadSource<R> as Source>⟧.left result ≡ R.remaining reader }
        ensures faults { ⟦<ReadSource<R> as Source>⟧.faults result ≡ 0 }
        ensures calls { ⟦<ReadSource<R> as Source>⟧.calls result ≡ never_asked }
    {
        ReadSource {
            reader,
            calls: 0,
            empty: 0,
            faults: 0,
        }
    }
}

impl<R: Read> Source for ReadSource<R> {
    ghost left = { λ s. R.remaining s.reader };

    ghost faults = { λ s. s.faults };

    ghost calls = { λ s. record { calls = s.calls; empty = s.empty } };

    fn fill(&mut self, buf: &mut [u8]) -> Result<usize, Failed>
        ensures bound { ReadsAtMost result buf.new }
        ensures bytes { ReadConsumes (R.remaining self.old.reader) (R.remaining self.new.reader)
            result buf.new }
        ensures cause { CountsFault self.old.faults self.new.faults result }
        ensures calls { WasAsked 1 (empty_in result)
            (record { calls = self.old.calls; empty = self.old.empty })
            (record { calls = self.new.calls; empty = self.new.empty }) }

        ensures counted { self.new.faults ≡ (if is_err result then next_count self.old.faults
            else self.old.faults) }
    {
        self.calls = self.calls.saturating_add(1);
        match self.reader.read(buf) {
            Ok(0) => {
                self.empty = self.empty.saturating_add(1);
                Ok(0)
            }
            Ok(count) => Ok(count),
            Err(_) => {
                self.empty = self.empty.saturating_add(1);
                self.faults = self.faults.saturating_add(1);
                Err(Failed)
            }
        }
    }
}

/// A sink over any writer of the standard library, as standard output.
#[derive(Drop)]
pub struct WriteSink<W: Write> {
    writer: W,
    faults: u64,
}

impl<W: Write> WriteSink<W> {
    /// A sink that writes after what this writer holds.
    pub fn new(writer: W) -> WriteSink<W>
        ensures written { ⟦<WriteSink<W> as Sink>⟧.written result ≡ W.contents writer }
        ensures faults { ⟦<WriteSink<W> as Sink>⟧.faults result ≡ 0 }
        ensures ready { ⟦<WriteSink<W> as Sink>⟧.ready result ≡ true }
    {
        WriteSink { writer, faults: 0 }
    }
}

impl<W: Write> Sink for WriteSink<W> {
    ghost use Rattle.std.specs.Prelude.{true};

    ghost written = { λ s. W.contents s.writer };

    ghost faults = { λ s. s.faults };

    ghost ready = { λ _. true };

    fn put(&mut self, piece: &[u8]) -> Result<usize, Failed>
        ensures bound { IfOk result (λ n. TakesSome n piece.now) }
        ensures bytes { WriteAppends (W.contents self.old.writer) (W.contents self.new.writer)
            result piece.now }
        ensures cause { CountsFault self.old.faults self.new.faults result }

        ensures counted { self.new.faults ≡ (if is_err result then next_count self.old.faults
            else self.old.faults) }
    {
        match self.writer.write(piece) {
            Ok(count) if count > 0 || piece.is_empty() => Ok(count),
            _ => {
                self.faults = self.faults.saturating_add(1);
                Err(Failed)
            }
        }
    }
}

/// The machine's files, by their paths. Those may be fetched that the words of a command line name.
#[derive(Drop)]
pub struct FolderShelf<'a, R: Files> {
    files: &'a R,
    words: &'a [String],
    calls: u64,
    faults: u64,
}

impl<'a, R: Files> Model for FolderShelf<'a, R> {
    ghost use Rattle.std.specs.Prelude.{ℕ, List};
    ghost use Rattle.pv_io.specs.Files.{fetch_names};
    ghost use Rattle.pv_io.specs.Folder.{Folder};

    ghost Value = { Folder };

    ghost view = { λ s. record {
      names = fetch_names s.words.now;
      calls = s.calls;
      faults = s.faults;
    } };
}

/// A whole file of at most so many bytes, or its first byte too many.
fn bytes_up_to(files: &impl Files, alloc: Global, name: &str, most: usize) -> io::Result<Vec<u8>> {
    let file = fs::open(files, name)?;
    let mut bytes = Vec::new(alloc);
    if let Ok(metadata) = file.metadata() {
        let room = metadata.len().min(most as u64).saturating_add(1);
        bytes.reserve_exact(room as usize)?;
    }
    file.take((most as u64).saturating_add(1))
        .read_to_end(&mut bytes)?;
    Ok(bytes)
}

impl<'a, R: Files> FolderShelf<'a, R> {
    /// A shelf that hasn't been asked yet, of the files that these words of a command line name.
    pub fn new(files: &'a R, words: &'a [String]) -> FolderShelf<'a, R>
        ensures { result ≡ record { names = fetch_names words.now; calls = 0; faults = 0 } }
    {
        FolderShelf {
            files,
            words,
            calls: 0,
            faults: 0,
        }
    }
}

impl<'a, R: Files> Shelf for FolderShelf<'a, R> {
    ghost use Rattle.std.specs.Prelude.{None};

    ghost names = { λ s. s.names };

    ghost moment = { λ s. record { files = None; calls = s.calls; faults = s.faults } };

    fn fetch(&mut self, alloc: Global, name: &str, most: usize) -> Result<Vec<u8>, FetchError>
        ensures bound { IfOk result (λ v. vec_len v ≤ most) }
        ensures cause { FetchCountsFault self.old.faults self.new.faults result }
        ensures calls { MadeCalls 1 self.old.calls self.new.calls }
        ensures names { self.new.names ≡ self.old.names }

        ensures counted { self.new.faults ≡ (if is_fault result then next_count self.old.faults
            else self.old.faults) }
    {
        self.calls = self.calls.saturating_add(1);
        match bytes_up_to(self.files, alloc, name, most) {
            Ok(bytes) if bytes.len() <= most => Ok(bytes),
            Ok(_) => Err(FetchError::TooLong),
            Err(error) if error.kind() == ErrorKind::OutOfMemory => Err(FetchError::NoMemory),
            Err(_) => {
                self.faults = self.faults.saturating_add(1);
                Err(FetchError::Failed)
            }
        }
    }
}
