//! Lists judged by threads, and their verdicts in order.

ghost use Rattle.std.specs.Prelude.{◌≡◌, ◌≢◌, ◌<◌, ◌+◌, ◌∷◌, [], ℕ, IfErr, IfOk, List};
ghost use Rattle.std.specs.Prelude.{Err, Ok, OnOk, Vec, length};
ghost use Rattle.std.specs.List.{AllByRecursion, AllZip};
ghost use Rattle.std.specs.declared.alloc.Global.{Global};
ghost use Rattle.pv_productive.specs.PlainForms.{dtd_of};
ghost use Rattle.pv_tree.specs.Lists.{Listed, lists_at, lists_from};
ghost use Rattle.pv_tree.specs.PlainForms.{plain, forest};
ghost use Rattle.pv_tree.specs.Words.{word_of};
ghost use Rattle.pv_tree.specs.declared.nodes.Mark.{Mark};
ghost use Rattle.pv_tree.specs.declared.nodes.Verdict.{Verdict};
ghost use Rattle.pv_missing.specs.Owners.{IsOwner};
ghost use Rattle.pv_missing.specs.Verdicts.{IsVerdict};
ghost use Rattle.pv_missing.specs.Widths.{FitsVerdict, IsListForVerdict};
ghost use Rattle.pv_missing.specs.WordVerdicts.{HoldsOne};
ghost use Rattle.pv_reach.specs.declared.errors.ReachError.TheVariants.{TooWide as too_wide};
ghost use Rattle.pv_parallel.specs.Jobs.{AreJoined, IsRunOf, JudgesBehind, JudgesJob};

use crate::gate::Gate;
use crate::jobs::{Job, Run};
use pv_chars::NoMemory;
use pv_fresh::owner_in;
use pv_missing::{Of, element_owner};
use pv_reach::{Judge, ReachError, judge_kids};
use pv_tree::{Node, Verdict};
use rayon::prelude::*;
use std::alloc::{AllocError, Global};
use std::thread::Threads;

/// What came of a piece of work.
pub type Judged = Result<Vec<Verdict>, ReachError>;

// The fewest pieces of work that are worth a thread.
const JOBS_BY_ONE_THREAD: usize = 8;

// The fewest that are worth more threads than one.
const JOBS_FOR_THREADS: usize = 4;

// Judges a list after those judged so far, when its number is told.
fn judge_list<G: Gate>(
    judge: &Judge<'_>,
    owner: Option<Of>,
    kids: &[Node],
    first: u64,
    gate: &G,
    verdicts: &mut Vec<Verdict>,
) -> Result<(), ReachError>
    ensures judged { OnOk result ((root : List ℕ) (list : Listed Mark) →
        list.kids ≡ forest kids.now → IsOwner (dtd_of judge.now) root list owner →
        HoldsOne list.owner list.kids →
        JudgesBehind (dtd_of judge.now) root (G.entered gate.now) first (list ∷ [])
        verdicts.old.items verdicts.new.items) }
    ensures wide { IfErr result (λ e. e ≡ too_wide → ¬ FitsVerdict (dtd_of judge.now)
        (length (word_of (dtd_of judge.now) (forest kids.now)))) }
{
    gate.enter(first.wrapping_add(verdicts.len() as u64));
    let verdict = judge_kids(judge, owner, kids)?;
    verdicts.push(verdict)?;
    Ok(())
}

// Judges the lists of this subtree.
#[cycle(judging)]
fn judge_node<G: Gate>(
    judge: &Judge<'_>,
    node: &Node,
    first: u64,
    gate: &G,
    verdicts: &mut Vec<Verdict>,
) -> Result<(), ReachError>
    ensures judged { OnOk result ((root path : List ℕ) →
        JudgesBehind (dtd_of judge.now) root (G.entered gate.now) first
        (lists_at path (plain node.now)) verdicts.old.items verdicts.new.items) }
    ensures wide { IfErr result (λ e. e ≡ too_wide → (path : List ℕ) →
        ¬ AllByRecursion (IsListForVerdict (dtd_of judge.now)) (lists_at path (plain node.now))) }
{
    let Node::Elem { name, kids, .. } = node else {
        return Ok(());
    };
    let owner = element_owner(judge.grammar().dtd(), name.as_slice());
    judge_list(judge, owner, kids, first, gate, verdicts)?;
    judge_nodes(judge, kids, first, gate, verdicts)
}

// Judges the lists of nodes side by side.
#[cycle(judging)]
fn judge_nodes<G: Gate>(
    judge: &Judge<'_>,
    nodes: &[Node],
    first: u64,
    gate: &G,
    verdicts: &mut Vec<Verdict>,
) -> Result<(), ReachError>
    ensures judged { OnOk result ((root path : List ℕ) (i : ℕ) →
        JudgesBehind (dtd_of judge.now) root (G.entered gate.now) first
        (lists_from path i (forest nodes.now)) verdicts.old.items verdicts.new.items) }
    ensures wide { IfErr result (λ e. e ≡ too_wide → (path : List ℕ) (i : ℕ) →
        ¬ AllByRecursion (IsListForVerdict (dtd_of judge.now))
        (lists_from path i (forest nodes.now))) }
{
    for node in nodes {
        judge_node(judge, node, first, gate, verdicts)?;
    }
    Ok(())
}

// Judges the lists of a job.
fn judge_job<G: Gate>(judge: &Judge<'_>, root: &[u8], job: &Job<'_>, gate: &G) -> Judged
    ensures { JudgesJob (dtd_of judge.now) root.now (G.entered gate.now) job.now result }
{
    let mut verdicts = Vec::new(judge.alloc());
    match job.run {
        Run::List(owner, kids) => {
            let owner = owner_in(judge, root, owner);
            judge_list(judge, owner, kids, job.first, gate, &mut verdicts)?;
            Ok(verdicts)
        }
        Run::Subtrees(nodes) => {
            judge_nodes(judge, nodes, job.first, gate, &mut verdicts)?;
            Ok(verdicts)
        }
    }
}

// Judges the lists of these jobs, one after the other.
fn judge_in_turn<G: Gate>(
    judge: &Judge<'_>,
    root: &[u8],
    jobs: &[Job<'_>],
    gate: &G,
) -> Result<Vec<Judged>, AllocError>
    ensures { IfOk result (λ judged. AllZip (JudgesJob (dtd_of judge.now) root.now
        (G.entered gate.now)) jobs.now judged.items) }
{
    let mut judged = Vec::new(judge.alloc());
    for job in jobs {
        judged.push(judge_job(judge, root, job, gate))?;
    }
    Ok(judged)
}

/// Judges the lists of these jobs by as many threads as there are processors, where they are worth
/// it, each list when its number was told; what came of the jobs stands in their order.
pub fn judge_jobs<G: Gate + Sync>(
    rt: &(impl Threads + Sync),
    judge: &Judge<'_>,
    root: &[u8],
    jobs: &[Job<'_>],
    gate: &G,
) -> Result<Vec<Judged>, AllocError>
    ensures { IfOk result (λ judged. AllZip (JudgesJob (dtd_of judge.now) root.now
        (G.entered gate.now)) jobs.now judged.items) }
{
    if jobs.len() < JOBS_FOR_THREADS {
        return judge_in_turn(judge, root, jobs, gate);
    }
    jobs.par_iter()
        .with_min_len(JOBS_BY_ONE_THREAD)
        .map(
            |job: &Job<'_>| -> Judged
                ensures { JudgesJob (dtd_of judge.entry.now) root.entry.now
                    (G.entered gate.entry.now) job.now result }
            { judge_job(judge, root, job, gate) },
        )
        .collect(rt, judge.alloc())
}

// The verdicts of a job none of whose lists is too wide.
fn verdicts_in(judged: &Judged) -> Result<&[Verdict], NoMemory>
    requires { judged.now ≢ Err too_wide }
    ensures { IfOk result (λ vs. (here : Vec Verdict Global) × (judged.now ≡ Ok here) ×
        (vs.now ≡ here.items)) }
{
    match judged {
        Ok(verdicts) => Ok(verdicts),
        Err(ReachError::TooWide) => unreachable!(),
        Err(ReachError::NoMemory) => Err(NoMemory),
    }
}

/// The verdicts of all jobs, none of whose lists is too wide.
pub fn join_judged(alloc: Global, judged: &[Judged]) -> Result<Vec<Verdict>, NoMemory>
    requires { AllByRecursion (λ one. one ≢ Err too_wide) judged.now }
    ensures { IfOk result (λ vs. AreJoined judged.now vs.items) }
{
    let mut verdicts = Vec::new(alloc);
    for one in judged {
        verdicts.extend_from_slice(verdicts_in(one)?)?;
    }
    Ok(verdicts)
}
