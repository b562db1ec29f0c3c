//! A search for the columns that a column needs before it comes to free ones.

ghost use Rattle.std.specs.Prelude.{◌≡◌, ◌<◌, IfOk, length};
ghost use Rattle.pv_reach.specs.Merging.{column_head};

use crate::plan::Plan;
use std::alloc::{AllocError, AllocFailed, Global};

/// Why there are no rules over few columns.
#[derive(Debug, Drop)]
pub enum Uncut {
    /// A column is needed that the search hasn't found.
    Unfound,
    /// There was too little memory to go on.
    NoMemory(AllocError),
}

impl From<AllocError> for Uncut {
    fn from(error: AllocError) -> Uncut {
        Uncut::NoMemory(error)
    }
}

impl<T: Drop> From<AllocFailed<T>> for Uncut {
    fn from(failed: AllocFailed<T>) -> Uncut {
        Uncut::NoMemory(AllocError::from(failed))
    }
}

/// The columns that a search has found.
#[derive(Debug, Drop)]
pub struct FoundColumns {
    /// The columns, in the order of their numbers.
    pub names: Vec<usize>,
    /// For each column its number, where it was found, by this search or by one before it.
    numbers: Vec<usize>,
}

impl FoundColumns {
    /// None, for columns below `width`.
    pub fn new(alloc: Global, width: usize) -> Result<FoundColumns, AllocError> {
        Ok(FoundColumns {
            names: Vec::new(alloc),
            numbers: vec![in alloc; 0usize; width]?,
        })
    }

    /// The number of a column.
    pub fn number_of(&self, column: usize) -> Result<usize, Uncut>
        ensures { IfOk result (λ l. (l < length self.now.names.items)
            × (column_head self.now.names.items l ≡ column)) }
    {
        let number = self.numbers.get(column).copied().unwrap_or(0);
        if number < self.names.len() && self.names[number] == column {
            Ok(number)
        } else {
            Err(Uncut::Unfound)
        }
    }

    /// Finds a column, where it wasn't found before.
    fn find(&mut self, column: usize) -> Result<(), AllocError> {
        let is_found = self.number_of(column).is_ok();
        if !is_found && column < self.numbers.len() {
            self.numbers[column] = self.names.len();
            self.names.push(column)?;
        }
        Ok(())
    }

    fn find_all(&mut self, columns: &[usize]) -> Result<(), AllocError> {
        for column in columns {
            self.find(*column)?;
        }
        Ok(())
    }

    /// Finds what the rules of a column have on their right.
    fn find_from(&mut self, plan: &Plan, column: usize) -> Result<(), AllocError> {
        for number in plan.ranges.first_of(column)..plan.ranges.end_of(column) {
            if number < plan.rules.len() && plan.rules[number].left == column {
                self.find_all(&plan.rules[number].columns)?;
            }
        }
        Ok(())
    }

    /// Numbers the columns in the order of their rules in the plan, those of the last rules first.
    fn order_by(&mut self, plan: &Plan) {
        self.names
            .sort_unstable_by_key(|column| usize::MAX - plan.ranges.end_of(*column));
        for (number, column) in self.names.iter().enumerate() {
            if *column < self.numbers.len() {
                self.numbers[*column] = number;
            }
        }
    }
}

/// Finds the columns that a column of a plan needs: itself, and whatever stands in the rules of those
/// that aren't free. What they lead to at one place comes after them, as in the plan.
pub fn find_needed(plan: &Plan, column: usize, found: &mut FoundColumns) -> Result<(), AllocError> {
    found.names.clear();
    found.find(column)?;
    for at in 0..found.numbers.len() {
        let Some(column) = found.names.get(at).copied() else {
            break;
        };
        if plan.free.set_at(column).is_none() {
            found.find_from(plan, column)?;
        }
    }
    found.order_by(plan);
    Ok(())
}
