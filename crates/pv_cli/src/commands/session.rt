//! The command `session`.

ghost use Rattle.std.specs.Prelude.{◌≡◌, true};
ghost use Rattle.pv_opening.specs.Devices.{input_at, output_at};
ghost use Rattle.pv_cli.specs.Returns.{DoesRest, session_stage};
ghost use Rattle.pv_opening.specs.JudgedCounts.{CountsOpening, judging_stage, lists_judged};
ghost use Rattle.pv_opening.specs.Returns.{Returns, plain_fetched};
ghost use Rattle.pv_cli.specs.declared.verb.Verb.TheVariants.{Session as session_verb};

use pv_conversation::{OpenedSession, begin, converse};
use pv_io::{Sink, Source};
use pv_opening::{Fetched, Status, Stop, open_document, respond};
use pv_steps::Steps;
use std::alloc::Global;
use std::mem::forget;
use std::sync::ledger::Ledger;
use std::thread::Threads;

// Reads the document, and begins a session on it.
fn open_session<L: Ledger>(
    rt: &(impl Threads + Sync),
    alloc: Global,
    fetched: Fetched,
    root: &[u8],
    steps: &mut Steps<L>,
) -> Result<OpenedSession, Stop>
    ensures returns { Returns (λ s. s) (session_stage root.now (plain_fetched fetched)) 0 result }
    ensures checks { CountsOpening (judging_stage root.now (plain_fetched fetched).0
        (plain_fetched fetched).1) lists_judged steps.old steps.new result }
{
    let opened = open_document(alloc, fetched, root)?;
    begin(rt, alloc, opened, root, steps)
}

/// Reads the document, begins a session, and answers the script. The session is never freed.
pub fn session<S: Source, K: Sink, L: Ledger>(
    rt: &(impl Threads + Sync),
    alloc: Global,
    fetched: Fetched,
    root: &[u8],
    input: &mut S,
    out: &mut K,
    steps: &mut Steps<L>,
) -> Status
    requires { K.ready out.old ≡ true }
    ensures { DoesRest session_verb root.now (plain_fetched fetched)
        (input_at input.old (S.left input.old) (S.calls input.old) (S.faults input.old))
        (input_at input.new (S.left input.new) (S.calls input.new) (S.faults input.new))
        (output_at (K.written out.old) (K.faults out.old))
        (output_at (K.written out.new) (K.faults out.new)) steps.old steps.new result }
{
    let mut session = match open_session(rt, alloc, fetched, root, steps) {
        Ok(session) => session,
        Err(stop) => return respond(out, Err(stop)),
    };
    let status = converse(rt, alloc, &mut session, input, out, steps);
    forget(session);
    status
}
