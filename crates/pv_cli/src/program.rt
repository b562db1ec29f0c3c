//! All that the program does.

ghost use Rattle.std.specs.Prelude.{◌≡◌, [], codes, true};
ghost use Rattle.pv_cli.specs.CommandLine.{command_line_of, files_named};
ghost use Rattle.pv_cli.specs.Headline.{GuardsSession};
ghost use Rattle.pv_opening.specs.Devices.{devices, input_at, output_at};
ghost use Rattle.pv_cli.specs.Program.{Runs};
ghost use Rattle.pv_opening.specs.Response.{with_line};
ghost use Rattle.pv_opening.specs.Returns.{TellsBy};
ghost use Rattle.pv_opening.specs.declared.status.Status.TheVariants.{Usage};
ghost use Rattle.pv_io.specs.Files.{byte_lists, fetch_names};

use crate::command_line::{CommandLine, command_line_of};
use crate::commands::drill::drill;
use crate::forms::{run_on_certificate, run_on_document};
use crate::laws::guarded_session_law;
use pv_commands::dtd::dtd;
use pv_commands::standoff::standoff;
use pv_io::{Shelf, Sink, Source};
use pv_opening::{Response, Status, Stop, respond};
use pv_steps::Steps;
use std::alloc::Global;
use std::sync::ledger::Ledger;
use std::thread::Threads;

fn usage(alloc: Global) -> Result<Response, Stop>
    ensures { TellsBy (λ r. r ≡ with_line Usage (codes "usage")) result }
{
    Ok(Response::with_line(alloc, Status::Usage, b"usage")?)
}

// Runs the command line that the words are.
fn run_words<H: Shelf, S: Source, K: Sink, L: Ledger>(
    rt: &(impl Threads + Sync),
    alloc: Global,
    words: &[String],
    shelf: &mut H,
    input: &mut S,
    out: &mut K,
    steps: &mut Steps<L>,
) -> Status
    requires names { H.names shelf.old ≡ fetch_names words.now }
    requires ready { K.ready out.old ≡ true }

    ensures runs { Runs (command_line_of (byte_lists words.now))
        (devices (H.moment shelf.old)
        (input_at input.old (S.left input.old) (S.calls input.old) (S.faults input.old))
        (output_at (K.written out.old) (K.faults out.old)) steps.old)
        (devices (H.moment shelf.new)
        (input_at input.new (S.left input.new) (S.calls input.new) (S.faults input.new))
        (output_at (K.written out.new) (K.faults out.new)) steps.new) result }
    ensures unasked { files_named (command_line_of (byte_lists words.now)) ≡ [] →
        shelf.new ≡ shelf.old }
    ensures names { H.names shelf.new ≡ H.names shelf.old }
    ensures files { (H.moment shelf.new).files ≡ (H.moment shelf.old).files }
{
    match command_line_of(words) {
        Some(CommandLine::OnDocument(verb, named)) => {
            run_on_document(rt, alloc, verb, shelf, &named, input, out, steps)
        }
        Some(CommandLine::OnCertificate(checker, named, file)) => respond(
            out,
            run_on_certificate(alloc, checker, shelf, &named, file),
        ),
        Some(CommandLine::OnRanges(named)) => {
            respond(out, standoff(rt, alloc, shelf, &named, steps))
        }
        Some(CommandLine::OnDtd(name)) => respond(out, dtd(alloc, shelf, name)),
        Some(CommandLine::Drill(n)) => respond(out, drill(rt, alloc, n, steps)),
        None => respond(out, usage(alloc)),
    }
}

/// All that the program does: the words are those after its name.
///
/// The shelf's names are the words but number 0 and number 2, counted from 0. `steps` counts the
/// verdicts that `check`, `why`, `standoff`, the opening of a session or a drill, and its edits,
/// undos and redos find; no other line of a session finds any, and other commands leave it.
pub fn pvtag<H: Shelf, S: Source, K: Sink, L: Ledger>(
    rt: &(impl Threads + Sync),
    alloc: Global,
    words: &[String],
    shelf: &mut H,
    input: &mut S,
    out: &mut K,
    steps: &mut Steps<L>,
) -> Status
    requires names { H.names shelf.old ≡ fetch_names words.now }
    requires ready { K.ready out.old ≡ true }

    // The status, the output, the causes of faults, and how often the devices are asked.
    ensures runs { Runs (command_line_of (byte_lists words.now))
        (devices (H.moment shelf.old)
        (input_at input.old (S.left input.old) (S.calls input.old) (S.faults input.old))
        (output_at (K.written out.old) (K.faults out.old)) steps.old)
        (devices (H.moment shelf.new)
        (input_at input.new (S.left input.new) (S.calls input.new) (S.faults input.new))
        (output_at (K.written out.new) (K.faults out.new)) steps.new) result }

    // The guarded session, in one statement.
    ensures guarded { GuardsSession (command_line_of (byte_lists words.now))
        (devices (H.moment shelf.old)
        (input_at input.old (S.left input.old) (S.calls input.old) (S.faults input.old))
        (output_at (K.written out.old) (K.faults out.old)) steps.old)
        (devices (H.moment shelf.new)
        (input_at input.new (S.left input.new) (S.calls input.new) (S.faults input.new))
        (output_at (K.written out.new) (K.faults out.new)) steps.new) result }

    // What stays.
    ensures unasked { files_named (command_line_of (byte_lists words.now)) ≡ [] →
        shelf.new ≡ shelf.old }
    ensures names { H.names shelf.new ≡ H.names shelf.old }
    ensures files { (H.moment shelf.new).files ≡ (H.moment shelf.old).files }
{
    guarded_session_law::<S>();
    run_words(rt, alloc, words, shelf, input, out, steps)
}
