//! A sweep against the edges: for each column, one that it leads to.

ghost use Rattle.std.specs.Prelude.{◌≡◌, ◌<◌, ℕ, List, IfOk, OnOk, get_or, length};
ghost use Rattle.pv_columns.specs.declared.layers.Edge.{Edge as PlainEdge};
ghost use Rattle.pv_reach.specs.LeadingColumns.{AreLed};

use crate::graph::chains::Chains;
use crate::graph::flags::set_flag;
use pv_columns::{Edge, is_marked};
use std::alloc::{AllocError, Global};

/// What a sweep has come to: for each column one that it leads to, at first itself; which columns
/// it came to; and these in order.
#[derive(Debug, Drop)]
pub struct Sweep {
    pub table: Vec<usize>,
    pub seen: Vec<bool>,
    pub columns: Vec<usize>,
}

/// Each number below `width`, in order.
pub fn numbers_below(alloc: Global, width: usize) -> Result<Vec<usize>, AllocError>
    ensures long { IfOk result (λ numbers. length numbers.items ≡ width) }
    ensures own { IfOk result (λ numbers. (k : ℕ) → k < width → get_or numbers.items k 0 ≡ k) }
    ensures led { IfOk result (λ numbers. (edges : List PlainEdge) →
        AreLed edges numbers.items) }
{
    let mut numbers = Vec::new(alloc);
    for number in 0..width {
        numbers.push(number)?;
    }
    Ok(numbers)
}

/// Comes to a column, where it has not come to it before.
fn come_to(column: usize, sweep: &mut Sweep) -> Result<(), AllocError>
    ensures { sweep.new.table.items ≡ sweep.old.table.items }
{
    if !is_marked(&sweep.seen, column) {
        set_flag(&mut sweep.seen, column);
        sweep.columns.push(column)?;
    }
    Ok(())
}

/// The column of an edge is given what that has which the edge leads to.
fn lead(edges: &[Edge], number: usize, table: &mut Vec<usize>)
    requires number { number < length edges.now }
    requires led { AreLed edges.now table.old.items }
    ensures led { AreLed edges.now table.new.items }
    ensures long { length table.new.items ≡ length table.old.items }
{
    let edge = edges[number];
    if edge.from < table.len() && edge.to < table.len() {
        table[edge.from] = table[edge.to];
    }
}

/// Whether the sweep has not come to the column of the edge, and it is in the group of the one that
/// it leads to.
fn is_fresh(edge: Edge, groups: &[usize], seen: &[bool]) -> bool {
    !is_marked(seen, edge.from) && groups.get(edge.from) == groups.get(edge.to)
}

/// Comes to the column of an edge, where it is fresh.
fn come_along(
    edges: &[Edge],
    groups: &[usize],
    number: usize,
    sweep: &mut Sweep,
) -> Result<(), AllocError>
    requires number { number < length edges.now }
    requires led { AreLed edges.now sweep.old.table.items }
    ensures led { OnOk result (AreLed edges.now sweep.new.table.items) }
    ensures long { OnOk result (length sweep.new.table.items ≡ length sweep.old.table.items) }
{
    let edge = edges[number];
    if is_fresh(edge, groups, &sweep.seen) {
        lead(edges, number, &mut sweep.table);
        come_to(edge.from, sweep)?;
    }
    Ok(())
}

/// Comes to the columns that lead to this one by an edge.
fn come_from(
    edges: &[Edge],
    chains: &Chains,
    groups: &[usize],
    column: usize,
    sweep: &mut Sweep,
) -> Result<(), AllocError>
    requires led { AreLed edges.now sweep.old.table.items }
    ensures led { OnOk result (AreLed edges.now sweep.new.table.items) }
    ensures long { OnOk result (length sweep.new.table.items ≡ length sweep.old.table.items) }
{
    let mut next = chains.first(column);
    while let Some(number) = next {
        next = chains.next(number);
        if number < edges.len() {
            come_along(edges, groups, number, sweep)?;
        }
    }
    Ok(())
}

/// Sweeps on from the columns that it has come to, from place `first` of their order on. It comes to
/// each column once.
fn go_on(
    edges: &[Edge],
    chains: &Chains,
    groups: &[usize],
    first: usize,
    sweep: &mut Sweep,
) -> Result<(), AllocError>
    requires led { AreLed edges.now sweep.old.table.items }
    ensures led { OnOk result (AreLed edges.now sweep.new.table.items) }
    ensures long { OnOk result (length sweep.new.table.items ≡ length sweep.old.table.items) }
{
    for at in first..sweep.seen.len() {
        let Some(column) = sweep.columns.get(at).copied() else {
            break;
        };
        come_from(edges, chains, groups, column, sweep)?;
    }
    Ok(())
}

/// Sweeps from these columns, each where no earlier one was led to it, against the edges; but only
/// where both ends are in one group.
pub fn sweep_from(
    alloc: Global,
    edges: &[Edge],
    chains: &Chains,
    groups: &[usize],
    columns: &[usize],
    width: usize,
) -> Result<Sweep, AllocError>
    ensures { IfOk result (λ sweep. (length sweep.table.items ≡ width) ×
        AreLed edges.now sweep.table.items) }
{
    let mut sweep = Sweep {
        table: numbers_below(alloc, width)?,
        seen: vec![in alloc; false; width]?,
        columns: Vec::new(alloc),
    };
    for column in columns {
        let first = sweep.columns.len();
        come_to(*column, &mut sweep)?;
        go_on(edges, chains, groups, first, &mut sweep)?;
    }
    Ok(sweep)
}
