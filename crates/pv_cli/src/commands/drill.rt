//! The command `drill`.

ghost use Rattle.std.specs.Prelude.{◌≡◌, ◌≤◌, ◌<◌, ◌+◌, ◌*◌, ◌++◌, ◌%◌, IfOk};
ghost use Rattle.std.specs.Prelude.{OnOk, decimal, length};
ghost use Rattle.pv_cli.specs.RunCounts.{CountsDrill, judging_drill_stage};
ghost use Rattle.pv_cli.specs.CommandLine.{IsDrillSize};
ghost use Rattle.pv_cli.specs.Drill.{CountsLine, CountsReplies, IsCountOf};
ghost use Rattle.pv_cli.specs.Drill.{IsDrillCourse, TellsCounts, counts_text, counts_with};
ghost use Rattle.pv_cli.specs.Drill.{drill_stage, no_counts};
ghost use Rattle.pv_opening.specs.Response.{plain_response, with_line};
ghost use Rattle.pv_opening.specs.JudgedCounts.{CountsOpening, lists_judged};
ghost use Rattle.pv_opening.specs.Returns.{TakesCourse, Returns, TellsBy, ending_of};
ghost use Rattle.pv_opening.specs.declared.status.Status.TheVariants.{Done as AllDone};
ghost use Rattle.pv_drill.specs.Drill.{drill_lines, section_line, section_lines};
ghost use Rattle.pv_script.specs.Commands.{SpellsCommand};
ghost use Rattle.pv_script.specs.declared.commands.Command.TheVariants.{Quit};

use pv_chars::NoMemory;
use pv_conversation::{OpenedSession, begin, turn};
use pv_drill::{drill_doc, drill_dtd, drill_line};
use pv_edit::Done;
use pv_opening::{Fetched, Response, Status, Stop, dtd_of, open_document};
use pv_script::push_number;
use pv_steps::Steps;
use std::alloc::{AllocError, Global};
use std::mem::forget;
use std::sync::ledger::Ledger;
use std::thread::Threads;

/// Counts of the replies to a script.
#[derive(Clone, Copy)]
pub struct Counts {
    /// The lines that were answered.
    pub lines: u64,
    /// The replies that are `ok`.
    pub accepted: u64,
    /// The other replies.
    pub refused: u64,
    /// The lists that were checked.
    pub checked: u64,
}

// The counts with one more reply, by what was done where it is `ok`.
fn count_move(counts: Counts, done: Option<Done>) -> Counts
    requires few { counts.lines < 60000 }
    requires bounded { IsCountOf counts.lines counts }
    ensures counted { result ≡ counts_with counts done }
    ensures bounded { IsCountOf (counts.lines + 1) result }
{
    match done {
        Some(done) => Counts {
            lines: counts.lines + 1,
            accepted: counts.accepted + 1,
            refused: counts.refused,
            checked: counts.checked + u64::from(done.checked),
        },
        None => Counts {
            lines: counts.lines + 1,
            accepted: counts.accepted,
            refused: counts.refused + 1,
            checked: counts.checked,
        },
    }
}

// Answers a line, and counts the reply.
fn count_line<L: Ledger>(
    rt: &(impl Threads + Sync),
    alloc: Global,
    session: &mut OpenedSession,
    line: &[u8],
    counts: Counts,
    steps: &mut Steps<L>,
) -> Result<Counts, NoMemory>
    requires goes_on { SpellsCommand line.now Quit → ⊥ }
    requires few { counts.lines < 60000 }
    requires bounded { IsCountOf counts.lines counts }
    ensures counted { IfOk result (CountsLine session.old counts line.now session.new) }
    ensures bounded { IfOk result (IsCountOf (counts.lines + 1)) }
    ensures steps { steps.new ≤ steps.old + 2 }
    ensures later { steps.old ≤ steps.new }
{
    let Some(answer) = turn(rt, alloc, session, line, steps)? else {
        unreachable!();
    };
    Ok(count_move(counts, answer.done))
}

// Answers a line of the drill, and counts the reply.
fn count_drill_line<L: Ledger>(
    rt: &(impl Threads + Sync),
    alloc: Global,
    session: &mut OpenedSession,
    k: u32,
    which: u32,
    counts: Counts,
    steps: &mut Steps<L>,
) -> Result<Counts, NoMemory>
    requires some { 1 ≤ k }
    requires most { k ≤ 20000 }
    requires line { which ≤ 2 }
    requires third { which ≡ 2 → k % 3 ≡ 0 }
    requires few { counts.lines < 60000 }
    requires bounded { IsCountOf counts.lines counts }
    ensures counted { IfOk result
        (CountsLine session.old counts (section_line k which) session.new) }
    ensures bounded { IfOk result (IsCountOf (counts.lines + 1)) }
    ensures steps { steps.new ≤ steps.old + 2 }
    ensures later { steps.old ≤ steps.new }
{
    let line = drill_line(alloc, k, which)?;
    count_line(rt, alloc, session, &line, counts, steps)
}

// Answers the lines for a section, and counts the replies.
fn count_section<L: Ledger>(
    rt: &(impl Threads + Sync),
    alloc: Global,
    session: &mut OpenedSession,
    k: u32,
    counts: Counts,
    steps: &mut Steps<L>,
) -> Result<Counts, NoMemory>
    requires some { 1 ≤ k }
    requires most { k ≤ 20000 }
    requires few { counts.lines + 3 ≤ 60000 }
    requires bounded { IsCountOf counts.lines counts }
    ensures counted { IfOk result (CountsReplies session.old counts (section_lines k) session.new) }
    ensures bounded { IfOk result (IsCountOf (counts.lines + 3)) }
    ensures steps { steps.new ≤ steps.old + 2 * length (section_lines k) }
    ensures later { steps.old ≤ steps.new }
{
    let first = count_drill_line(rt, alloc, session, k, 0, counts, steps)?;
    let second = count_drill_line(rt, alloc, session, k, 1, first, steps)?;
    if k % 3 == 0 {
        count_drill_line(rt, alloc, session, k, 2, second, steps)
    } else {
        Ok(second)
    }
}

// Answers the lines of the drill, and counts the replies.
fn count_drill<L: Ledger>(
    rt: &(impl Threads + Sync),
    alloc: Global,
    session: &mut OpenedSession,
    n: u32,
    steps: &mut Steps<L>,
) -> Result<Counts, NoMemory>
    requires { n ≤ 20000 }
    ensures counted { IfOk result (CountsReplies session.old no_counts (drill_lines n)
        session.new) }
    ensures steps { steps.new ≤ steps.old + 2 * length (drill_lines n) }
    ensures later { steps.old ≤ steps.new }
{
    let mut counts = Counts {
        lines: 0,
        accepted: 0,
        refused: 0,
        checked: 0,
    };
    let mut k = 0;
    while k < n {
        k += 1;
        counts = count_section(rt, alloc, session, k, counts, steps)?;
    }
    Ok(counts)
}

// Appends a word and a number.
fn push_count(text: &mut Vec<u8>, word: &[u8], number: u64) -> Result<(), AllocError>
    ensures { OnOk result (text.new.items ≡ text.old.items ++ (word.now ++ decimal number)) }
{
    text.extend_from_slice(word)?;
    push_number(text, number)
}

// The line of the counts.
fn tell(alloc: Global, n: u32, counts: Counts, left: u64) -> Result<Response, AllocError>
    ensures { IfOk result (λ r. plain_response r ≡ with_line AllDone (counts_text n counts left)) }
{
    let mut text = Vec::new(alloc);
    push_count(&mut text, b"drill ", u64::from(n))?;
    push_count(&mut text, b" lines ", counts.lines)?;
    push_count(&mut text, b" ok ", counts.accepted)?;
    push_count(&mut text, b" refused ", counts.refused)?;
    push_count(&mut text, b" open ", left)?;
    push_count(&mut text, b" checked ", counts.checked)?;
    Response::with_line(alloc, Status::Done, &text)
}

// The session on the document of the drill.
fn begin_drill<L: Ledger>(
    rt: &(impl Threads + Sync),
    alloc: Global,
    n: u32,
    steps: &mut Steps<L>,
) -> Result<OpenedSession, Stop>
    requires { IsDrillSize n }
    ensures returns { Returns (λ s. s) (drill_stage n) 0 result }
    ensures checks { CountsOpening (judging_drill_stage n) lists_judged steps.old steps.new result }
{
    let dtd = dtd_of(alloc, drill_dtd())?;
    let bytes = drill_doc(alloc, n)?;
    let opened = open_document(alloc, Fetched { dtd, bytes }, b"doc")?;
    begin(rt, alloc, opened, b"doc", steps)
}

// Answers the script of the drill, and tells the counts of the replies.
fn answer_drill<L: Ledger>(
    rt: &(impl Threads + Sync),
    alloc: Global,
    session: &mut OpenedSession,
    n: u32,
    steps: &mut Steps<L>,
) -> Result<Response, Stop>
    requires { n ≤ 20000 }
    ensures tells { TellsBy (TellsCounts n session.old) result }
    ensures steps { steps.new ≤ steps.old + 2 * length (drill_lines n) }
    ensures later { steps.old ≤ steps.new }
{
    let counts = count_drill(rt, alloc, session, n, steps)?;
    Ok(tell(alloc, n, counts, session.session().open_count())?)
}

/// Answers the script of the drill in a session on its document, and counts the replies. The
/// session is never freed.
pub fn drill<L: Ledger>(
    rt: &(impl Threads + Sync),
    alloc: Global,
    n: u32,
    steps: &mut Steps<L>,
) -> Result<Response, Stop>
    requires { IsDrillSize n }
    ensures finds { TakesCourse (IsDrillCourse n) result }
    ensures checks { CountsDrill n (ending_of result) steps.old steps.new }
{
    let mut session = begin_drill(rt, alloc, n, steps)?;
    let response = answer_drill(rt, alloc, &mut session, n, steps);
    forget(session);
    response
}
