//! The program over the machine's files and streams: `run` ends with the exit status of what
//! `pvtag` answers, whatever the devices are.
#![tactic(auto)]

ghost use Rattle.std.specs.Prelude.{◌≡◌, ◌<◌, true};
ghost use Rattle.std.specs.Process.{exit_status};
ghost use Rattle.pv_cli.specs.CommandLine.{command_line_of};
ghost use Rattle.pv_opening.specs.Devices.{devices, input_at, output_at};
ghost use Rattle.pv_cli.specs.Program.{Runs};
ghost use Rattle.pv_opening.specs.Status.{code_of};
ghost use Rattle.pv_io.specs.Files.{byte_lists, fetch_names};
ghost use Rattle.pvtag.specs.Here.{RunsHere};

use pv_cli::{Status, pvtag};
use pv_io::{FolderShelf, ReadSource, Shelf, Sink, Source, WriteSink};
use pv_steps::Steps;
use std::alloc::Global;
use std::marker::Brand;
use std::process::ExitCode;
use std::rt::{Env, Files};
use std::sync::ledger::{Blank, Ledger};
use std::thread::Threads;
use std::{env, io};

/// The exit status where the words after the program's name can't be fetched.
const NO_WORDS: u8 = 10;

fn words_of(rt: &(impl Env + AllocGlobal), alloc: Global) -> io::Result<Vec<String>> {
    let mut words = Vec::new(alloc);
    for word in env::args(rt)?.skip(1) {
        words.push(word)?;
    }
    Ok(words)
}

/// Runs the program over these devices, and ends with the number of its status.
fn run<H: Shelf, S: Source, K: Sink, L: Ledger>(
    rt: &(impl Threads + Sync),
    alloc: Global,
    words: &[String],
    shelf: &mut H,
    input: &mut S,
    out: &mut K,
    steps: &mut Steps<L>,
) -> ExitCode
    requires names { H.names shelf.old ≡ fetch_names words.now }
    requires ready { K.ready out.old ≡ true }
    ensures { (status : Status) × (exit_status result ≡ code_of status) ×
        Runs (command_line_of (byte_lists words.now))
        (devices (H.moment shelf.old)
        (input_at input.old (S.left input.old) (S.calls input.old) (S.faults input.old))
        (output_at (K.written out.old) (K.faults out.old)) steps.old)
        (devices (H.moment shelf.new)
        (input_at input.new (S.left input.new) (S.calls input.new) (S.faults input.new))
        (output_at (K.written out.new) (K.faults out.new)) steps.new) status }
{
    let status = pvtag(rt, alloc, words, shelf, input, out, steps);
    ExitCode::from(status.code())
}

// Runs the program over the machine's files, its input and its output: what these hold isn't told,
// but what their counts show is that of a run.
fn run_here<L: Ledger, R: Files + AllocGlobal + Input + Print + Threads + Sync>(
    rt: &R,
    words: &[String],
    blank: Blank,
) -> ExitCode
    requires name { blank.name ≡ L.name }
    requires parts { blank.parts ≡ L.parts }
    requires some { 0 < L.parts }
    ensures { (status : Status) × (exit_status result ≡ code_of status)
        × RunsHere (command_line_of (byte_lists words.now)) status }
{
    let mut shelf = FolderShelf::new(rt, words);
    let mut input = ReadSource::new(rt.reader());
    let mut out = WriteSink::new(io::writer(rt));
    let mut steps = Steps::<L>::start(blank);
    run(
        rt,
        rt.alloc(),
        words,
        &mut shelf,
        &mut input,
        &mut out,
        &mut steps,
    )
}

fn main(rt: HostRuntime) -> ExitCode {
    let Ok(words) = words_of(&rt, rt.alloc()) else {
        return ExitCode::from(NO_WORDS);
    };
    run_here::<Brand, HostRuntime>(&rt, &words, Blank::new(1))
}
