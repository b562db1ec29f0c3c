//! The order in which a search along edges leaves columns.

use crate::graph::chains::Chains;
use pv_columns::Edge;
use std::alloc::{AllocError, Global};

/// A column whose edges are gone through, and the number of the next one.
#[derive(Clone, Copy, Debug)]
struct Visit {
    column: usize,
    next: Option<usize>,
}

/// The columns whose edges are gone through, one led to by another; which columns were among them;
/// and those that were left, in order.
#[derive(Debug, Drop)]
struct Visits {
    trail: Vec<Visit>,
    entered: Vec<bool>,
    left: Vec<usize>,
}

impl Visits {
    ghost use Rattle.std.specs.Prelude.{◌+◌, ◌<◌, ◌≤◌, OnOk};
    ghost use Rattle.pv_reach.specs.Searches.{steps_left, steps_of};

    /// Begins with a column, where it has not been among them.
    fn enter(&mut self, chains: &Chains, column: usize) -> Result<(), AllocError>
        ensures { OnOk result (steps_left chains.now self.new ≤ steps_left chains.now self.old) }
    {
        if column >= self.entered.len() || self.entered[column] {
            return Ok(());
        }
        self.entered[column] = true;
        self.trail.push(Visit {
            column,
            next: chains.first(column),
        })?;
        Ok(())
    }

    /// Goes on after the next edge of a column, and enters the column that it leads to; or leaves
    /// the column.
    fn go_on(&mut self, edges: &[Edge], chains: &Chains, visit: Visit) -> Result<(), AllocError>
        ensures { OnOk result (steps_left chains.now self.new <
            steps_left chains.now self.old + steps_of chains.now visit) }
    {
        let Some(number) = visit.next else {
            self.left.push(visit.column)?;
            return Ok(());
        };
        self.trail.push(Visit {
            next: chains.next(number),
            ..visit
        })?;
        if number >= edges.len() {
            return Ok(());
        }
        self.enter(chains, edges[number].to)?;
        Ok(())
    }
}

/// Goes through what a column leads to.
fn leave_from(
    edges: &[Edge],
    chains: &Chains,
    column: usize,
    visits: &mut Visits,
) -> Result<(), AllocError> {
    visits.enter(chains, column)?;
    while let Some(visit) = visits.trail.pop() {
        visits.go_on(edges, chains, visit)?;
    }
    Ok(())
}

/// All columns, each after those that it leads to, but where they lead back to it.
pub fn leaving_order(
    alloc: Global,
    edges: &[Edge],
    chains: &Chains,
    width: usize,
) -> Result<Vec<usize>, AllocError> {
    let mut visits = Visits {
        trail: Vec::new(alloc),
        entered: vec![in alloc; false; width]?,
        left: Vec::new(alloc),
    };
    for column in 0..width {
        leave_from(edges, chains, column, &mut visits)?;
    }
    Ok(visits.left)
}
