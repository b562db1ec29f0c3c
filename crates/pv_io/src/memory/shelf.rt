//! Files in memory.

ghost use Rattle.std.specs.Prelude.{◌≡◌, ◌≤◌, ◌<◌, ◌↔◌, ◌⊎◌, [], map, length, Some, IfOk, IsNone};
ghost use Rattle.std.specs.Prelude.{IsSome, IfSome, Contains, vec_len, string_bytes, Err};
ghost use Rattle.std.specs.Option.{option_map};
ghost use Rattle.pv_io.specs.Causes.{MadeCalls};
ghost use Rattle.pv_io.specs.Files.{FetchTells, FetchCountsFault, file_named, named_files};
ghost use Rattle.pv_io.specs.Files.{byte_lists, is_fault, HoldsMore};
ghost use Rattle.pv_io.specs.Memory.{no_calls, after_call, FetchFaults};

use super::calls::Calls;
use crate::shelf::{FetchError, Shelf};
use pv_chars::NoMemory;
use std::alloc::{AllocError, Global};
use std::marker::Model;

/// Files in memory, of which any call may be made to fail.
#[derive(Drop)]
pub struct MemShelf {
    names: Vec<String>,
    files: Vec<(String, Vec<u8>)>,
    calls: Calls,
}

impl Model for MemShelf {
    ghost use Rattle.pv_io.specs.Files.{named_files, byte_lists};
    ghost use Rattle.pv_io.specs.Memory.{HeldFiles};

    ghost Value = { HeldFiles };

    ghost view = { λ s. record {
      names = byte_lists s.names.items;
      files = named_files s.files.items;
      calls = s.calls;
    } };
}

fn copy_names(alloc: Global, names: &[String]) -> Result<Vec<String>, AllocError>
    ensures { IfOk result (λ v. byte_lists v.items ≡ byte_lists names.now) }
{
    let mut copies = Vec::new(alloc);
    for name in names {
        copies.push(name.clone()?)?;
    }
    Ok(copies)
}

fn copy_files(
    alloc: Global,
    files: &[(String, Vec<u8>)],
) -> Result<Vec<(String, Vec<u8>)>, AllocError>
    ensures { IfOk result (λ v. named_files v.items ≡ named_files files.now) }
{
    let mut copies = Vec::new(alloc);
    for file in files {
        copies.push((file.0.clone()?, file.1.to_vec(alloc)?))?;
    }
    Ok(copies)
}

fn file_of<'a>(name: &str, files: &'a [(String, Vec<u8>)]) -> Option<&'a Vec<u8>>
    ensures { option_map (λ v. v.now.items) result ≡ file_named name.now (named_files files.now) }
{
    for file in files {
        if name == file.0.as_str() {
            return Some(&file.1);
        }
    }
    None
}

impl MemShelf {
    /// `names` may be fetched, the first of `files` with a name is its file, and `failing` has the
    /// numbers, from 0, of the calls that fail.
    pub fn new(
        alloc: Global,
        names: &[String],
        files: &[(String, Vec<u8>)],
        failing: &[u64],
    ) -> Result<MemShelf, NoMemory>
        ensures { IfOk result
            (λ s. s ≡ record {
              names = byte_lists names.now;
              files = named_files files.now;
              calls = no_calls failing.now;
            }) }
    {
        Ok(MemShelf {
            names: copy_names(alloc, names)?,
            files: copy_files(alloc, files)?,
            calls: Calls::new(alloc, failing)?,
        })
    }
}

impl Shelf for MemShelf {
    ghost names = { λ s. s.names };

    ghost moment = { λ s. record { files = Some s.files; calls = s.calls.made; faults = s.calls.faults } };

    fn fetch(&mut self, alloc: Global, name: &str, most: usize) -> Result<Vec<u8>, FetchError>
        ensures bound { IfOk result (λ v. vec_len v ≤ most) }
        ensures bytes { FetchTells (Some self.old.files) name.now most result }
        ensures cause { FetchCountsFault self.old.calls.faults self.new.calls.faults result }
        ensures calls { MadeCalls 1 self.old.calls.made self.new.calls.made }
        ensures names { self.new.names ≡ self.old.names }
        ensures files { self.new.files ≡ self.old.files }

        ensures too_long { (result ≡ Err FetchError.TooLong) ↔
            HoldsMore (file_named name.now self.old.files) most }
        ensures fails { (result ≡ Err FetchError.Failed) ↔
            FetchFaults (file_named name.now self.old.files) most self.old.calls }
        ensures counted { self.new.calls ≡ after_call (is_fault result) self.old.calls }
        ensures quiet { self.old.calls.failing ≡ [] → IsSome (file_named name.now self.old.files) →
            self.new.calls.faults ≡ self.old.calls.faults }
    {
        let failing = self.calls.begin();
        let Some(bytes) = file_of(name, &self.files) else {
            self.calls.fail();
            return Err(FetchError::Failed);
        };
        if bytes.len() > most {
            return Err(FetchError::TooLong);
        }
        if failing {
            self.calls.fail();
            return Err(FetchError::Failed);
        }
        bytes.to_vec(alloc).map_err(|_| FetchError::NoMemory)
    }
}
