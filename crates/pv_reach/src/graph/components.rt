//! Columns that lead to one another at one place: they reach the same.

ghost use Rattle.std.specs.Prelude.{◌≡◌, ◌<◌, ℕ, IfOk, List, get_or, length};
ghost use Rattle.pv_columns.specs.Marks.{AreNullable};
ghost use Rattle.pv_columns.specs.declared.rules.ColumnRule.{ColumnRule as PlainRule};
ghost use Rattle.pv_reach.specs.LeadingColumns.{AreAlike, AreHeads, AreRightEdges, IsHead, Turned};

use crate::graph::chains::Chains;
use crate::graph::edges::{edges_of, turned_edges};
use crate::graph::leaving::leaving_order;
use crate::graph::sweep::{Sweep, sweep_from};
use pv_columns::{ColumnRule, Edge};
use std::alloc::{AllocError, Global};

/// The columns of a grammar in components: those that lead to one another at one place.
#[derive(Debug, Drop)]
pub struct Components {
    /// For each column the first one of its component.
    pub heads: Vec<usize>,
    /// The columns, component by component, each component before those that it leads to.
    pub columns: Vec<usize>,
}

fn starts_of(alloc: Global, edges: &[Edge]) -> Result<Vec<usize>, AllocError> {
    let mut starts = Vec::new(alloc);
    for edge in edges {
        starts.push(edge.from)?;
    }
    Ok(starts)
}

/// The column that this one leads to, where it is led to by that one too; else itself.
fn common_end(above: &[usize], below: &[usize], column: usize) -> usize
    ensures { IsHead above.now below.now column result }
{
    if column < above.len() && column < below.len() && above[column] == below[column] {
        return above[column];
    }
    column
}

fn common_ends(alloc: Global, above: &[usize], below: &[usize]) -> Result<Vec<usize>, AllocError>
    ensures { IfOk result (λ heads. (length heads.items ≡ length above.now)
        × ((c : ℕ) → c < length above.now →
        IsHead above.now below.now c (get_or heads.items c 0))) }
{
    let mut heads = Vec::new(alloc);
    for column in 0..above.len() {
        heads.push(common_end(above, below, column))?;
    }
    Ok(heads)
}

// The edges that start at each column below `width`.
fn chains_of(alloc: Global, edges: &[Edge], width: usize) -> Result<Chains, AllocError> {
    let starts = starts_of(alloc, edges)?;
    Chains::of(alloc, &starts, width)
}

// For each column below `width` the first one of its component, by where edges lead from it, and
// where they lead the other way.
fn heads_by(
    alloc: Global,
    turned: &[Edge],
    by_start: &Chains,
    above: &Sweep,
    width: usize,
) -> Result<Vec<usize>, AllocError>
    requires { length above.now.table.items ≡ width }
    ensures { IfOk result (λ heads. AreHeads turned.now above.now.table.items heads.items) }
{
    let below = sweep_from(alloc, turned, by_start, &above.table, &above.columns, width)?;
    common_ends(alloc, &above.table, &below.table)
}

// The components of the columns below `width` between which these edges lead.
fn components_by(
    alloc: Global,
    edges: &[Edge],
    turned: &[Edge],
    by_start: &Chains,
    by_end: &Chains,
    width: usize,
) -> Result<Components, AllocError>
    requires { Turned edges.now turned.now }
    ensures long { IfOk result (λ c. length c.heads.items ≡ width) }
    ensures alike { IfOk result (λ c. (rules : List PlainRule) → AreRightEdges rules edges.now →
        AreAlike rules c.heads.items) }
{
    let mut order = leaving_order(alloc, edges, by_start, width)?;
    order.reverse();
    let one = vec![in alloc; 0usize; width]?;
    let above = sweep_from(alloc, edges, by_end, &one, &order, width)?;
    let heads = heads_by(alloc, turned, by_start, &above, width)?;
    Ok(Components {
        heads,
        columns: above.columns,
    })
}

/// The components of the columns below `width`, where these reach over no tokens. It takes a time
/// about linear in the rules.
pub fn components_of(
    alloc: Global,
    rules: &[ColumnRule],
    bare: &[bool],
    width: usize,
) -> Result<Components, AllocError>
    requires { AreNullable rules.now bare.now }
    ensures { IfOk result (λ c. (length c.heads.items ≡ width) × AreAlike rules.now c.heads.items) }
{
    let edges = edges_of(alloc, rules, bare)?;
    let turned = turned_edges(alloc, &edges)?;
    let by_start = chains_of(alloc, &edges, width)?;
    let by_end = chains_of(alloc, &turned, width)?;
    components_by(alloc, &edges, &turned, &by_start, &by_end, width)
}
