//! Command lines by form: what a document's verb opens, and the command after it.

ghost use Rattle.std.specs.Prelude.{◌≡◌, ℕ, Some, Contains, true};
ghost use Rattle.pv_cli.specs.CommandLine.{on_certificate, on_document};
ghost use Rattle.pv_opening.specs.Devices.{devices, input_at, output_at};
ghost use Rattle.pv_cli.specs.Program.{Runs};
ghost use Rattle.pv_cli.specs.Returns.{DoesRest, FindsResponse};
ghost use Rattle.pv_opening.specs.Returns.{plain_fetched};

use crate::checker::Checker;
use crate::commands::session::session;
use crate::verb::Verb;
use pv_commands::check::check;
use pv_commands::complete::complete;
use pv_commands::deny::deny;
use pv_commands::valid::valid;
use pv_commands::verify::verify;
use pv_commands::why::why;
use pv_io::{Shelf, Sink, Source};
use pv_opening::{Fetched, Named, Response, Status, Stop, fetch_files, respond};
use pv_steps::Steps;
use std::alloc::Global;
use std::sync::ledger::Ledger;
use std::thread::Threads;

/// A command on a DTD, a document and a certificate.
pub fn run_on_certificate<H: Shelf>(
    alloc: Global,
    checker: Checker,
    shelf: &mut H,
    named: &Named<'_>,
    file: &str,
) -> Result<Response, Stop>
    requires dtd_named { Contains (H.names shelf.old) named.now.dtd.now }
    requires doc_named { Contains (H.names shelf.old) named.now.doc.now }
    requires file_named { Contains (H.names shelf.old) file.now }
    ensures finds { (checked : ℕ) → FindsResponse (Some (on_certificate checker
        named.now.dtd.now named.now.root.now named.now.doc.now file.now))
        (H.moment shelf.old) (H.moment shelf.new)
        checked checked result }
    ensures names { H.names shelf.new ≡ H.names shelf.old }
    ensures files { (H.moment shelf.new).files ≡ (H.moment shelf.old).files }
{
    match checker {
        Checker::Verify => verify(alloc, shelf, named, file),
        Checker::Deny => deny(alloc, shelf, named, file),
    }
}

// What a verb does once the DTD is opened and the document's bytes are fetched.
fn do_rest<S: Source, K: Sink, L: Ledger>(
    rt: &(impl Threads + Sync),
    alloc: Global,
    verb: Verb,
    fetched: Fetched,
    root: &[u8],
    input: &mut S,
    out: &mut K,
    steps: &mut Steps<L>,
) -> Status
    requires { K.ready out.old ≡ true }
    ensures { DoesRest verb root.now (plain_fetched fetched)
        (input_at input.old (S.left input.old) (S.calls input.old) (S.faults input.old))
        (input_at input.new (S.left input.new) (S.calls input.new) (S.faults input.new))
        (output_at (K.written out.old) (K.faults out.old))
        (output_at (K.written out.new) (K.faults out.new)) steps.old steps.new result }
{
    match verb {
        Verb::Valid => respond(out, valid(alloc, &fetched, root)),
        Verb::Check => respond(out, check(rt, alloc, fetched, root, steps)),
        Verb::Session => session(rt, alloc, fetched, root, input, out, steps),
        Verb::Complete => respond(out, complete(alloc, fetched, root)),
        Verb::Why => respond(out, why(rt, alloc, fetched, root, steps)),
    }
}

/// A verb on a DTD and a document: opens the files, and does what the verb does.
pub fn run_on_document<H: Shelf, S: Source, K: Sink, L: Ledger>(
    rt: &(impl Threads + Sync),
    alloc: Global,
    verb: Verb,
    shelf: &mut H,
    named: &Named<'_>,
    input: &mut S,
    out: &mut K,
    steps: &mut Steps<L>,
) -> Status
    requires ready { K.ready out.old ≡ true }
    requires dtd_named { Contains (H.names shelf.old) named.now.dtd.now }
    requires doc_named { Contains (H.names shelf.old) named.now.doc.now }
    ensures runs { Runs (Some (on_document verb named.now.dtd.now named.now.root.now
        named.now.doc.now))
        (devices (H.moment shelf.old)
        (input_at input.old (S.left input.old) (S.calls input.old) (S.faults input.old))
        (output_at (K.written out.old) (K.faults out.old)) steps.old)
        (devices (H.moment shelf.new)
        (input_at input.new (S.left input.new) (S.calls input.new) (S.faults input.new))
        (output_at (K.written out.new) (K.faults out.new)) steps.new) result }
    ensures names { H.names shelf.new ≡ H.names shelf.old }
    ensures files { (H.moment shelf.new).files ≡ (H.moment shelf.old).files }
{
    match fetch_files(alloc, shelf, named) {
        Ok(fetched) => do_rest(rt, alloc, verb, fetched, named.root, input, out, steps),
        Err(stop) => respond(out, Err(stop)),
    }
}
