//! Cuts that are kept for the lists of all owners.

ghost use Rattle.std.specs.Prelude.{◌≡◌, ◌∷◌, ◌++◌, [], Contains, IfOk, IfSome, List, OnOk, ℕ};
ghost use Rattle.pv_columns.specs.declared.rules.ColumnRule.{ColumnRule as PlainRule};
ghost use Rattle.pv_reach.specs.Cuts.{AreCuts, AreRanges};
ghost use Rattle.pv_reach.specs.Merging.{column_head};

use crate::columns::merging::column_head;
use crate::plan::Plan;
use crate::tables::cut::{Cut, cut_of};
use crate::tables::found::{FoundColumns, Uncut};
use std::alloc::{AllocError, Global};

/// The cuts of some columns.
#[derive(Debug, Drop)]
pub struct Cuts {
    pub cuts: Vec<Cut>,
    /// For each column the place of its cut, where it has one.
    places: Vec<usize>,
    /// How many rules and columns more may be kept.
    room: usize,
}

impl Cuts {
    /// No cuts, of which so many rules and columns may be kept.
    pub fn none(alloc: Global, room: usize) -> Cuts
        ensures { (rules : List PlainRule) (width : ℕ) → AreCuts rules width result }
    {
        Cuts {
            cuts: Vec::new(alloc),
            places: Vec::new(alloc),
            room,
        }
    }

    /// The cut of a column, where one is kept.
    pub fn of_column(&self, column: usize) -> Option<&Cut>
        ensures cut { IfSome result (λ cut. Contains self.now.cuts.items cut.now) }
        ensures column { IfSome result (λ cut.
            column_head cut.now.names.items cut.now.number ≡ column) }
    {
        let place = self.places.get(column).copied().unwrap_or(0);
        if place >= self.cuts.len() {
            return None;
        }
        let cut = &self.cuts[place];
        if column_head(&cut.names, cut.number) == column {
            Some(cut)
        } else {
            None
        }
    }

    /// Keeps a cut of a column.
    fn push(&mut self, cut: Cut, column: usize) -> Result<(), AllocError>
        ensures { OnOk result (self.new.cuts.items ≡ self.old.cuts.items ++ (cut ∷ [])) }
    {
        self.room = self.room.saturating_sub(cut.rules.len() + cut.names.len());
        if column < self.places.len() {
            self.places[column] = self.cuts.len();
        }
        self.cuts.push(cut)?;
        Ok(())
    }
}

/// Keeps the cut of a column that isn't free, while there is room.
fn keep_cut(
    alloc: Global,
    plan: &Plan,
    found: &mut FoundColumns,
    column: usize,
    cuts: &mut Cuts,
) -> Result<(), AllocError>
    requires ranges { AreRanges plan.now.rules.items plan.now.ranges }
    ensures { OnOk result (AreCuts plan.now.rules.items plan.now.width cuts.old →
        AreCuts plan.now.rules.items plan.now.width cuts.new) }
{
    let is_needed = plan.free.set_at(column).is_none() && cuts.of_column(column).is_none();
    if cuts.room == 0 || !is_needed {
        return Ok(());
    }
    match cut_of(alloc, plan, found, column) {
        Ok(cut) => cuts.push(cut, column),
        Err(Uncut::Unfound) => Ok(()),
        Err(Uncut::NoMemory(error)) => Err(error),
    }
}

/// The cuts of so many owners whose contents aren't free, the first of them while these have fewer
/// rules and columns than the plan has rules: so a plan takes no more than a few times its rules,
/// and who comes late makes a cut for each list.
pub fn cuts_of(alloc: Global, plan: &Plan, names: usize) -> Result<Cuts, AllocError>
    requires ranges { AreRanges plan.now.rules.items plan.now.ranges }
    ensures { IfOk result (AreCuts plan.now.rules.items plan.now.width) }
{
    let mut found = FoundColumns::new(alloc, plan.width)?;
    let mut cuts = Cuts {
        cuts: Vec::new(alloc),
        places: vec![in alloc; 0usize; plan.width]?,
        room: plan.rules.len(),
    };
    for name in 0..names {
        let column = column_head(&plan.heads, name);
        keep_cut(alloc, plan, &mut found, column, &mut cuts)?;
    }
    Ok(cuts)
}
