//! The lists of a document gathered as pieces of work, in document order.

ghost use Rattle.std.specs.Prelude.{◌≡◌, ◌≤◌, ◌<◌, ◌+◌, ◌^◌, [], IfOk, OnOk, List, length, ℕ};
ghost use Rattle.std.specs.List.{AllByRecursion};
ghost use Rattle.pv_tree.specs.Lists.{Listed, lists_at, lists_from, lists_of};
ghost use Rattle.pv_tree.specs.Plain.{nodes_in, nodes_in_all};
ghost use Rattle.pv_tree.specs.PlainDocs.{plain_doc};
ghost use Rattle.pv_tree.specs.PlainForms.{plain, forest};
ghost use Rattle.pv_tree.specs.declared.nodes.Mark.{Mark};
ghost use Rattle.pv_parallel.specs.Jobs.{Adds, AreJobs, HasGathered, IsRunOf, TakesFront};
ghost use Rattle.pv_parallel.specs.Sizes.{HasFewTokens};

use crate::jobs::{Job, Run};
use crate::sizes::small_front;
use pv_chars::NoMemory;
use pv_tree::{Doc, Node, OwnerName};
use std::alloc::Global;

/// The pieces of work so far.
#[derive(Drop)]
struct Gathering<'a> {
    jobs: Vec<Job<'a>>,
    /// How many lists they have.
    count: u64,
    /// The most kids of one of these, or more.
    longest: usize,
}

impl<'a> Gathering<'a> {
    fn new(alloc: Global) -> Gathering<'a>
        ensures { HasGathered [] result }
    {
        Gathering {
            jobs: Vec::new(alloc),
            count: 0,
            longest: 0,
        }
    }

    // So many lists, of at most so many kids each, come after those so far.
    fn add(&mut self, run: Run<'a>, lists: u64, longest: usize) -> Result<(), NoMemory>
        requires { self.old.count + lists < 2 ^ 64 }
        ensures added { OnOk result ((here : List (Listed Mark)) → IsRunOf here run.entry →
            lists ≡ length here → AllByRecursion (HasFewTokens longest) here →
            Adds here self.old self.new) }
        ensures count { OnOk result (self.new.count ≡ self.old.count + lists) }
    {
        self.jobs.push(Job {
            first: self.count,
            run,
        })?;
        self.count += lists;
        self.longest = self.longest.max(longest);
        Ok(())
    }
}

// Adds the lists of nodes side by side: those of subtrees that are small go together, and a large
// one is cut up.
#[cycle(gathering)]
fn add_nodes<'a>(nodes: &'a [Node], gathering: &mut Gathering<'a>) -> Result<(), NoMemory>
    requires { gathering.old.count + nodes_in_all (forest nodes.now) < 2 ^ 64 }
    ensures added { OnOk result ((path : List ℕ) (i : ℕ) →
        Adds (lists_from path i (forest nodes.now)) gathering.old gathering.new) }
    ensures count { OnOk result (gathering.new.count
        ≤ gathering.old.count + nodes_in_all (forest nodes.now)) }
{
    let mut rest = nodes;
    'runs: while !rest.is_empty() {
        rest = add_front(rest, gathering)?;
    }
    Ok(())
}

// Adds the lists of the first of these nodes, of which there are some, and gives the others.
#[cycle(gathering)]
fn add_front<'a>(nodes: &'a [Node], gathering: &mut Gathering<'a>) -> Result<&'a [Node], NoMemory>
    requires some { 0 < length nodes.now }
    requires room { gathering.old.count + nodes_in_all (forest nodes.now) < 2 ^ 64 }
    ensures { IfOk result (λ rest. TakesFront nodes.now rest.now gathering.old gathering.new) }
{
    let front = small_front(nodes);
    if 0 < front.count {
        let (run, rest) = nodes.split_at(front.count);
        gathering.add(Run::Subtrees(run), front.lists, front.longest)?;
        return Ok(rest);
    }
    add_large(&nodes[0], gathering)?;
    Ok(nodes.split_at(1).1)
}

// Adds the lists of a large subtree, that of its node by itself.
#[cycle(gathering)]
fn add_large<'a>(node: &'a Node, gathering: &mut Gathering<'a>) -> Result<(), NoMemory>
    requires { gathering.old.count + nodes_in (plain node.now) < 2 ^ 64 }
    ensures added { OnOk result ((path : List ℕ) →
        Adds (lists_at path (plain node.now)) gathering.old gathering.new) }
    ensures count { OnOk result (gathering.new.count
        ≤ gathering.old.count + nodes_in (plain node.now)) }
{
    let Node::Elem { name, kids, .. } = node else {
        return Ok(());
    };
    let owner = OwnerName::Element(name.as_slice());
    gathering.add(Run::List(owner, kids), 1, kids.len())?;
    add_nodes(kids, gathering)
}

/// The lists of a document as pieces of work, in document order, and how many kids one has at most.
pub fn jobs_of<'a>(alloc: Global, doc: &'a Doc) -> Result<(Vec<Job<'a>>, usize), NoMemory>
    ensures jobs { IfOk result (λ r. AreJobs 0 (lists_of (plain_doc doc.now)) r.0.items) }
    ensures narrow { IfOk result (λ r.
        AllByRecursion (HasFewTokens r.1) (lists_of (plain_doc doc.now))) }
    ensures few { OnOk result (length (lists_of (plain_doc doc.now)) < 2 ^ 64) }
{
    let root = std::slice::from_ref(&doc.root);
    let mut gathering = Gathering::new(alloc);
    gathering.add(Run::List(OwnerName::Document, root), 1, 1)?;
    add_nodes(root, &mut gathering)?;
    Ok((gathering.jobs, gathering.longest))
}
