//! How many subtrees are small enough, together, for one piece of work.

ghost use Rattle.std.specs.Prelude.{◌≤◌, ◌<◌, ◌+◌, ◌^◌, IsTrue, List, length, take, ℕ};
ghost use Rattle.pv_tree.specs.Lists.{lists_at, lists_from};
ghost use Rattle.pv_tree.specs.PlainForms.{plain, forest};
ghost use Rattle.pv_parallel.specs.Sizes.{Measures, Tallies};

use pv_tree::Node;

// The most nodes of subtrees that are one piece of work.
const NODES_OF_A_JOB: usize = 1024;

/// What is counted of subtrees.
#[derive(Clone, Copy)]
struct Tally {
    /// How many nodes may still be counted.
    left: usize,
    /// The lists so far.
    lists: u64,
    /// The most kids of one of them.
    longest: usize,
}

// Counts the lists of this subtree, unless it has more nodes than may be counted.
#[cycle(sizes)]
fn count_node(node: &Node, tally: &mut Tally) -> bool
    requires { tally.old.lists + tally.old.left < 2 ^ 64 }
    ensures counted { IsTrue result → (path : List ℕ) →
        Tallies (lists_at path (plain node.now)) tally.old tally.new }
    ensures bounded { tally.new.lists + tally.new.left ≤ tally.old.lists + tally.old.left }
{
    if tally.left == 0 {
        return false;
    }
    tally.left -= 1;
    let Node::Elem { kids, .. } = node else {
        return true;
    };
    tally.lists += 1;
    tally.longest = tally.longest.max(kids.len());
    count_kids(kids, tally)
}

// Counts the lists of nodes side by side, unless they are more than may be counted.
#[cycle(sizes)]
fn count_kids(kids: &[Node], tally: &mut Tally) -> bool
    requires { tally.old.lists + tally.old.left < 2 ^ 64 }
    ensures counted { IsTrue result → (path : List ℕ) →
        Tallies (lists_from path 0 (forest kids.now)) tally.old tally.new }
    ensures bounded { tally.new.lists + tally.new.left ≤ tally.old.lists + tally.old.left }
{
    for kid in kids {
        if !count_node(kid, tally) {
            return false;
        }
    }
    true
}

/// The first of some nodes.
#[derive(Clone, Copy)]
pub struct Front {
    /// How many they are.
    pub count: usize,
    /// How many lists are in their subtrees.
    pub lists: u64,
    /// The most kids of one of these.
    pub longest: usize,
}

/// The first of these nodes, as many as have subtrees that are one piece of work together; none
/// where the first has a larger one.
pub fn small_front(nodes: &[Node]) -> Front
    ensures within { result.count ≤ length nodes.now }
    ensures lists { (path : List ℕ) (i : ℕ) →
        Measures (lists_from path i (forest (take result.count nodes.now))) result }
{
    let mut tally = Tally {
        left: NODES_OF_A_JOB,
        lists: 0,
        longest: 0,
    };
    let mut front = Front {
        count: 0,
        lists: 0,
        longest: 0,
    };
    for node in nodes {
        if !count_node(node, &mut tally) {
            return front;
        }
        front = Front {
            count: front.count + 1,
            lists: tally.lists,
            longest: tally.longest,
        };
    }
    front
}

/// Whether a subtree has no more nodes than these.
pub fn has_few_nodes(node: &Node, most: u32) -> bool {
    let mut tally = Tally {
        left: most as usize,
        lists: 0,
        longest: 0,
    };
    count_node(node, &mut tally)
}
