//! The beginning of a session.

ghost use Rattle.std.specs.Prelude.{◌≡◌, ◌≤◌, IfErr, IfOk, length};
ghost use Rattle.pv_cache.specs.AcceptedEdits.{MAX_EDITED_NODES};
ghost use Rattle.pv_conversation.specs.Session.{guarding_stage};
ghost use Rattle.pv_dtd.specs.PlainForms.{plain_dtd};
ghost use Rattle.pv_opening.specs.JudgedCounts.{CountsOpening};
ghost use Rattle.pv_opening.specs.Possibility.{AreVerdictsOf, width_stage};
ghost use Rattle.pv_opening.specs.Returns.{Returns, StopsBy};
ghost use Rattle.pv_tree.specs.Lists.{lists_of};
ghost use Rattle.pv_tree.specs.Plain.{nodes_in};
ghost use Rattle.pv_tree.specs.PlainDocs.{plain_doc};
ghost use Rattle.pv_tree.specs.Prolog.{IsProlog};

use crate::opened_session::OpenedSession;
use pv_cache::PlannedGrammar;
use pv_chars::{Bytes, NoMemory, bytes_of};
use pv_dtd::Dtd;
use pv_missing::Verdicts;
use pv_opening::{Opened, Stop, narrow_verdicts_by};
use pv_productive::build;
use pv_session::Session;
use pv_steps::Steps;
use pv_tree::Doc;
use std::alloc::Global;
use std::sync::ledger::Ledger;
use std::thread::Threads;

// The grammar of a DTD, its rules laid out.
fn planned_grammar(alloc: Global, dtd: Dtd) -> Result<PlannedGrammar, NoMemory>
    ensures { IfOk result (λ grammar. grammar ≡ plain_dtd dtd) }
{
    let grammar = build(alloc, dtd)?;
    PlannedGrammar::of(alloc, grammar)
}

// The root's name, copied, and the verdicts of a document's lists.
fn judge_lists<L: Ledger>(
    rt: &(impl Threads + Sync),
    alloc: Global,
    grammar: &PlannedGrammar,
    doc: &Doc,
    root: &[u8],
    steps: &mut Steps<L>,
) -> Result<(Bytes, Verdicts), Stop>
    ensures root { IfOk result (λ found. found.0 ≡ root.now) }
    ensures has { IfOk result (λ found. AreVerdictsOf root.now grammar.now (plain_doc doc.now)
        found.1) }
    ensures denied { IfErr result (StopsBy (width_stage grammar.now (plain_doc doc.now)) 0) }
    ensures checks { CountsOpening (width_stage grammar.now (plain_doc doc.now))
        (λ _. length (lists_of (plain_doc doc.now))) steps.old steps.new result }
{
    let judge = grammar.judge(alloc);
    let verdicts = narrow_verdicts_by(rt, &judge, doc, root, steps)?;
    let root = bytes_of(alloc, root)?;
    Ok((root, verdicts))
}

// What a session on a document has beside it: the grammar, the root's name, and the verdicts.
fn prepare<L: Ledger>(
    rt: &(impl Threads + Sync),
    alloc: Global,
    dtd: Dtd,
    doc: &Doc,
    root: &[u8],
    steps: &mut Steps<L>,
) -> Result<(PlannedGrammar, Bytes, Verdicts), Stop>
    ensures grammar { IfOk result (λ ready. ready.0 ≡ plain_dtd dtd) }
    ensures root { IfOk result (λ ready. ready.1 ≡ root.now) }
    ensures has { IfOk result (λ ready. AreVerdictsOf ready.1 ready.0 (plain_doc doc.now)
        ready.2) }
    ensures denied { IfErr result (StopsBy (width_stage (plain_dtd dtd) (plain_doc doc.now)) 0) }
    ensures checks { CountsOpening (width_stage (plain_dtd dtd) (plain_doc doc.now))
        (λ _. length (lists_of (plain_doc doc.now))) steps.old steps.new result }
{
    let grammar = planned_grammar(alloc, dtd)?;
    let (root, verdicts) = judge_lists(rt, alloc, &grammar, doc, root, steps)?;
    Ok((grammar, root, verdicts))
}

/// Begins a session on these files, whatever the verdicts of the document's lists are. The rules of
/// the grammar are laid out once, for these and for those of edits.
pub fn begin<L: Ledger>(
    rt: &(impl Threads + Sync),
    alloc: Global,
    opened: Opened,
    root: &[u8],
    steps: &mut Steps<L>,
) -> Result<OpenedSession, Stop>
    requires few { nodes_in (plain_doc opened.doc).root ≤ MAX_EDITED_NODES }
    requires prolog { IsProlog root.now (plain_doc opened.doc).before }
    ensures returns { Returns (λ s. s) (guarding_stage root.now (plain_dtd opened.dtd)
        (plain_doc opened.doc)) 0 result }
    ensures checks { CountsOpening (width_stage (plain_dtd opened.dtd) (plain_doc opened.doc))
        (λ _. length (lists_of (plain_doc opened.doc))) steps.old steps.new result }
{
    let Opened { dtd, doc, .. } = opened;
    let (grammar, root, verdicts) = prepare(rt, alloc, dtd, &doc, root, steps)?;
    let session = Session::begin_by(alloc, grammar, root, doc, verdicts);
    Ok(OpenedSession::of(alloc, session))
}
