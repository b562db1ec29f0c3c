//! The program over the machine's files and streams: `run` ends with the exit status of what
//! `pvmany` answers, whatever the devices are.
#![tactic(auto)]

ghost use Rattle.std.specs.Prelude.{◌≡◌, ◌<◌, true};
ghost use Rattle.std.specs.Process.{exit_status};
ghost use Rattle.pv_io.specs.Files.{byte_lists, fetch_names};
ghost use Rattle.pv_many.specs.Many.{AnswersMany};
ghost use Rattle.pv_opening.specs.Devices.{input_at, output_at};
ghost use Rattle.pv_opening.specs.Status.{code_of};
ghost use Rattle.pvmany.specs.Here.{AnswersManyHere};

use pv_io::{FolderShelf, ReadSource, Shelf, Sink, Source, WriteSink};
use pv_many::{Archive, FolderArchive, pvmany};
use pv_opening::Status;
use pv_steps::Steps;
use std::alloc::Global;
use std::marker::Brand;
use std::process::ExitCode;
use std::rt::{Env, Files};
use std::sync::ledger::{Blank, Ledger};
use std::thread::Threads;
use std::{env, io};

/// The exit status where the words after the program's name can't be fetched.
const NO_WORDS: u8 = 10;

fn words_of(rt: &(impl Env + AllocGlobal), alloc: Global) -> io::Result<Vec<String>> {
    let mut words = Vec::new(alloc);
    for word in env::args(rt)?.skip(1) {
        words.push(word)?;
    }
    Ok(words)
}

/// Runs the program over these devices, and ends with the number of its status.
fn run<L: Ledger, H: Shelf, F: Archive, S: Source, K: Sink>(
    rt: &(impl Threads + Sync),
    alloc: Global,
    words: &[String],
    steps: Steps<L>,
    shelf: &mut H,
    archive: &mut F,
    input: &mut S,
    out: &mut K,
) -> ExitCode
    requires names { H.names shelf.old ≡ fetch_names words.now }
    requires ready { K.ready out.old ≡ true }
    ensures { (status : Status) × (exit_status result ≡ code_of status) ×
        AnswersMany (byte_lists words.now)
        (H.moment shelf.old) (H.moment shelf.new) (F.moment archive.old) (F.moment archive.new)
        (input_at input.old (S.left input.old) (S.calls input.old) (S.faults input.old))
        (input_at input.new (S.left input.new) (S.calls input.new) (S.faults input.new))
        (output_at (K.written out.old) (K.faults out.old))
        (output_at (K.written out.new) (K.faults out.new)) status }
{
    let status = pvmany(rt, alloc, words, steps, shelf, archive, input, out);
    ExitCode::from(status.code())
}

// Runs the program over the machine's files, its input and its output: what these hold isn't told,
// but what their counts show is that of an answer.
fn run_here<L: Ledger, R: Files + AllocGlobal + Input + Print + Threads + Sync>(
    rt: &R,
    words: &[String],
    blank: Blank,
) -> ExitCode
    requires name { blank.name ≡ L.name }
    requires parts { blank.parts ≡ L.parts }
    requires some { 0 < L.parts }
    ensures { (status : Status) × (exit_status result ≡ code_of status)
        × AnswersManyHere (byte_lists words.now) status }
{
    let mut shelf = FolderShelf::new(rt, words);
    let mut archive = FolderArchive::new(rt);
    let mut input = ReadSource::new(rt.reader());
    let mut out = WriteSink::new(io::writer(rt));
    let steps = Steps::<L>::start(blank);
    run(
        rt,
        rt.alloc(),
        words,
        steps,
        &mut shelf,
        &mut archive,
        &mut input,
        &mut out,
    )
}

fn main(rt: HostRuntime) -> ExitCode {
    let Ok(words) = words_of(&rt, rt.alloc()) else {
        return ExitCode::from(NO_WORDS);
    };
    run_here::<Brand, HostRuntime>(&rt, &words, Blank::new(1))
}
