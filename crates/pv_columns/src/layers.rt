//! A layer has a word of 64 bits for each column. Each column is to have the bits of those that it
//! leads to.

ghost use Rattle.std.specs.Prelude.{◌≡◌, ◌≤◌, ◌<◌, ◌^◌, ◌↔◌, ℕ, List, bit_or, false, length};
ghost use Rattle.std.specs.Prelude.{slice_index, true};
ghost use Rattle.pv_columns.specs.Bits.{HasIn, room};
ghost use Rattle.pv_columns.specs.EdgeFlows.{AreAttained, AreClosed, Flows, Grow, EdgesInRange};
ghost use Rattle.pv_columns.specs.EdgeFlows.{Joins};

/// A column, and one that it leads to.
#[derive(Clone, Copy, Debug)]
pub struct Edge {
    pub from: usize,
    pub to: usize,
}

/// The bits of both words.
pub(crate) fn union(one: u64, other: u64) -> u64
    ensures value { result ≡ bit_or one other }
    ensures most { one ≤ result }
    ensures fits { result < 2 ^ 64 }
{
    one | other
}

/// Joins the word of the edge's column with that of the one that it leads to, and tells whether it
/// changes.
fn join(edge: Edge, layer: &mut [u64]) -> bool
    requires from { edge.from < length layer.old }
    requires to { edge.to < length layer.old }
    ensures joins { Joins edge layer.old layer.new }
    ensures same { result ≡ false → layer.new ≡ layer.old }
    ensures less { result ≡ true → room layer.new < room layer.old }
{
    let joined = union(layer[edge.from], layer[edge.to]);
    if joined == layer[edge.from] {
        return false;
    }
    layer[edge.from] = joined;
    true
}

/// Joins along each edge once, and tells whether any word changes.
fn raise(edges: &[Edge], layer: &mut [u64]) -> bool
    requires { EdgesInRange (length layer.old) edges.now }
    ensures long { length layer.new ≡ length layer.old }
    ensures attained { (seeds : List ℕ) → AreAttained edges.now seeds layer.old →
        AreAttained edges.now seeds layer.new }
    ensures grow { Grow layer.old layer.new }
    ensures closed { result ≡ false → AreClosed edges.now layer.new }
    ensures less { result ≡ true → room layer.new < room layer.old }
{
    let mut changed = false;
    for edge in edges {
        if join(*edge, layer) {
            changed = true;
        }
    }
    changed
}

/// Joins along the edges until nothing changes: each column has then exactly the bits that flow to
/// it.
pub fn close(edges: &[Edge], layer: &mut [u64])
    requires { EdgesInRange (length layer.old) edges.now }
    ensures long { length layer.new ≡ length layer.old }
    ensures exact { (c k : ℕ) → HasIn layer.new c k ↔ Flows edges.now layer.old c k }
{
    while raise(edges, layer) {}
}
