//! The program over the machine's files and its output: `run` ends with the exit status of what
//! `pvlong` answers, whatever the devices are. It tells how many elements are missing in a
//! document, also where a list is too wide to weigh, and prints a completed document
//! (`specs/ToldNumbers.antt`): by two bounds, which mostly meet (of `pv_long`). By its words it
//! opens the files in the order of work (of `pv_opening`); `specs/RequestAnswers.antt` says what
//! comes of them, and `specs/Exits.antt` with which status it ends.
#![tactic(auto)]

mod answering;
mod exits;
mod possibility;
mod program;
mod requests;
mod seconds;
mod telling;

ghost use Rattle.std.specs.Prelude.{◌≡◌, true};
ghost use Rattle.std.specs.Process.{exit_status};
ghost use Rattle.pv_io.specs.Files.{byte_lists, fetch_names};
ghost use Rattle.pv_opening.specs.Devices.{output_at};
ghost use Rattle.pvlong.specs.RequestAnswers.{AnswersHere, AnswersWords};
ghost use Rattle.pvlong.specs.Exits.{exit_code};

use crate::exits::Exit;
use crate::program::pvlong;
use crate::seconds::{Seconds, SecondsError};
use pv_io::{FolderShelf, Shelf, Sink, WriteSink};
use pv_long::Deadline;
use pv_opening::Status;
use std::alloc::Global;
use std::process::ExitCode;
use std::rt::{Env, Files};
use std::time::Clock;
use std::{env, io};

/// The exit status where the words after the program's name can't be fetched.
const NO_WORDS: u8 = 10;

fn words_of(rt: &(impl Env + AllocGlobal), alloc: Global) -> io::Result<Vec<String>> {
    let mut words = Vec::new(alloc);
    for word in env::args(rt)?.skip(1) {
        words.push(word)?;
    }
    Ok(words)
}

/// Runs the program over these devices, and ends with the number of its exit.
fn run<H: Shelf, K: Sink, D: Deadline>(
    alloc: Global,
    words: &[String],
    shelf: &mut H,
    out: &mut K,
    deadline: &D,
) -> ExitCode
    requires names { H.names shelf.old ≡ fetch_names words.now }
    requires ready { K.ready out.old ≡ true }
    ensures { (exit : Exit) × (exit_status result ≡ exit_code exit) ×
        AnswersWords (byte_lists words.now)
        (H.moment shelf.old) (H.moment shelf.new)
        (output_at (K.written out.old) (K.faults out.old))
        (output_at (K.written out.new) (K.faults out.new)) exit }
{
    let exit = pvlong(alloc, words, shelf, out, deadline);
    ExitCode::from(exit.code())
}

// Runs the program over the machine's files and its output: what these hold isn't told, but what
// their counts show is that of an answer.
fn run_here<R: Files + AllocGlobal + Print + Clock + Env>(
    rt: &R,
    words: &[String],
    seconds: &Seconds<'_, R>,
) -> ExitCode
    ensures { (exit : Exit) × (exit_status result ≡ exit_code exit)
        × AnswersHere (byte_lists words.now) exit }
{
    let mut shelf = FolderShelf::new(rt, words);
    let mut out = WriteSink::new(io::writer(rt));
    run(rt.alloc(), words, &mut shelf, &mut out, seconds)
}

fn main(rt: HostRuntime) -> ExitCode {
    let Ok(words) = words_of(&rt, rt.alloc()) else {
        return ExitCode::from(NO_WORDS);
    };
    match Seconds::from_now(&rt) {
        Ok(seconds) => run_here(&rt, &words, &seconds),
        // No words are no request.
        Err(SecondsError::NoNumber) => run_here(&rt, &[], &Seconds::without_end(&rt)),
        Err(SecondsError::NoMemory) => ExitCode::from(Status::NoMemory.code()),
    }
}
