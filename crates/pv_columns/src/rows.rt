//! Edges and seeds of rules, and from these which tokens each column takes.

ghost use Rattle.std.specs.Prelude.{◌≡◌, ◌<◌, ◌^◌, ◌/◌, ◌%◌, ◌⊎◌, ℕ, IfOk, Contains, false, length};
ghost use Rattle.std.specs.Prelude.{true};
ghost use Rattle.pv_columns.specs.Marks.{AreMarked};
ghost use Rattle.pv_columns.specs.Bits.{HasIn};
ghost use Rattle.pv_columns.specs.EdgeFlows.{Grow, EdgesInRange};
ghost use Rattle.pv_columns.specs.ColumnRules.{InRange};
ghost use Rattle.pv_columns.specs.Rows.{AddsEdges, AreEdges, AreSeeds, HasEdges, HasSeed, IsEdgeOf};
ghost use Rattle.pv_columns.specs.Rows.{IsLayer, IsSeedOf};
ghost use Rattle.pv_columns.specs.declared.layers.Edge.{Edge as PlainEdge};

use crate::layers::{Edge, close, union};
use crate::marks::{are_marked, is_open};
use crate::rules::ColumnRule;
use crate::tokens::token_number;
use std::alloc::{AllocError, Global};

fn push_edges(left: usize, columns: &[usize], edges: &mut Vec<Edge>) -> Result<(), AllocError>
    ensures { IfOk result
        (λ _. AddsEdges left columns.now (length columns.now) edges.old.items edges.new.items) }
{
    for column in columns {
        edges.push(Edge {
            from: left,
            to: *column,
        })?;
    }
    Ok(())
}

/// Adds the edges of a rule.
fn add_edges(rule: &ColumnRule, live: &[bool], edges: &mut Vec<Edge>) -> Result<(), AllocError>
    ensures grow { IfOk result
        (λ _. (e : PlainEdge) → Contains edges.old.items e → Contains edges.new.items e) }
    ensures only { IfOk result
        (λ _. (e : PlainEdge) → Contains edges.new.items e → Contains edges.old.items e ⊎
        IsEdgeOf live.now rule.now e) }
    ensures has { IfOk result (λ _. HasEdges live.now edges.new.items rule.now) }
{
    if is_open(rule, live) {
        push_edges(rule.left, rule.columns.as_slice(), edges)?;
    }
    Ok(())
}

/// The edges of the rules without tokens.
pub fn edges_of(alloc: Global, rules: &[ColumnRule], live: &[bool]) -> Result<Vec<Edge>, AllocError>
    ensures { IfOk result (λ edges. AreEdges rules.now live.now edges.items) }
{
    let mut edges = Vec::new(alloc);
    for rule in rules {
        add_edges(rule, live, &mut edges)?;
    }
    Ok(edges)
}

/// The word with this bit alone.
fn power(bit: u64) -> u64
    requires { bit < 64 }
    ensures { result ≡ 2 ^ bit }
{
    1 << bit
}

/// Gives a column a number, if it is one of layer `layer_number`.
pub(crate) fn put(column: usize, number: u64, layer_number: u64, layer: &mut [u64])
    requires { column < length layer.old }
    ensures long { length layer.new ≡ length layer.old }
    ensures grow { Grow layer.old layer.new }
    ensures only { (c k : ℕ) → HasIn layer.new c k → HasIn layer.old c k ⊎
        ((c ≡ column) × (number / 64 ≡ layer_number) × (number % 64 ≡ k)) }
    ensures has { number / 64 ≡ layer_number → HasIn layer.new column (number % 64) }
{
    if number / 64 == layer_number {
        layer[column] = union(layer[column], power(number % 64));
    }
}

/// Gives a column the token of a rule.
fn add_seed(rule: &ColumnRule, live: &[bool], layer_number: u64, layer: &mut [u64])
    requires { rule.now.left < length layer.old }
    ensures long { length layer.new ≡ length layer.old }
    ensures grow { Grow layer.old layer.new }
    ensures only { (c k : ℕ) → HasIn layer.new c k → HasIn layer.old c k ⊎
        IsSeedOf live.now layer_number rule.now c k }
    ensures has { HasSeed live.now layer_number layer.new rule.now }
{
    if let Some(token) = rule.token {
        if are_marked(live, rule.columns.as_slice()) {
            put(rule.left, token_number(token), layer_number, layer);
        }
    }
}

/// What columns have by the tokens of rules.
fn seeds_of(
    alloc: Global,
    rules: &[ColumnRule],
    live: &[bool],
    layer_number: u64,
    width: usize,
) -> Result<Vec<u64>, AllocError>
    requires { InRange width rules.now }
    ensures long { IfOk result (λ layer. length layer.items ≡ width) }
    ensures seeds { IfOk result (λ layer. AreSeeds rules.now live.now layer_number layer.items) }
{
    let mut layer = vec![in alloc; 0u64; width]?;
    for rule in rules {
        add_seed(rule, live, layer_number, &mut layer);
    }
    Ok(layer)
}

/// Which tokens of a layer each column takes: those with the numbers from 64 times the layer's on.
pub fn layer_of(
    alloc: Global,
    rules: &[ColumnRule],
    live: &[bool],
    edges: &[Edge],
    layer_number: u64,
    width: usize,
) -> Result<Vec<u64>, AllocError>
    requires in_range { InRange width rules.now }
    requires edges { AreEdges rules.now live.now edges.now }
    ensures long { IfOk result (λ layer. length layer.items ≡ width) }
    ensures exact { IfOk result (λ layer. IsLayer rules.now live.now layer_number layer.items) }
{
    let mut layer = seeds_of(alloc, rules, live, layer_number, width)?;
    close(edges, &mut layer);
    Ok(layer)
}
