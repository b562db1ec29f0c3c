//! How far fronts go.

ghost use Rattle.std.specs.Prelude.{◌≡◌, ◌<◌, ◌≤◌, true};
ghost use Rattle.pv_long.specs.Ends.{room_left};

use pv_chars::NoMemory;
use std::alloc::Global;

/// How far the fronts at a place go, by column.
#[derive(Debug, Drop)]
pub struct Ends {
    ends: Vec<u32>,
}

impl Ends {
    /// Those of so many fronts without a reach.
    pub fn none(alloc: Global, columns: usize) -> Result<Ends, NoMemory> {
        Ok(Ends {
            ends: vec![in alloc; 0; columns]?,
        })
    }

    /// Lets the front of a column go up to an end, where that is further, and tells whether it is.
    pub fn extend(&mut self, column: u32, end: u32) -> bool
        ensures further { result ≡ true → room_left self.new < room_left self.old }
        ensures kept { room_left self.new ≤ room_left self.old }
    {
        let place = column as usize;
        if place < self.ends.len() && self.ends[place] < end {
            self.ends[place] = end;
            true
        } else {
            false
        }
    }
}
