//! The calls of a device in memory: which fail, how many there were, and how many faults.

ghost use Rattle.std.specs.Prelude.{◌≡◌, ◌≤◌, ◌↔◌, IsTrue, IfOk};
ghost use Rattle.pv_io.specs.Causes.{next_count};
ghost use Rattle.pv_io.specs.Memory.{no_calls, FailsNow};

use pv_chars::NoMemory;
use std::alloc::Global;
use std::marker::Model;

#[derive(Drop)]
pub(super) struct Calls {
    failing: Vec<u64>,
    made: u64,
    faults: u64,
}

impl Model for Calls {
    ghost use Rattle.pv_io.specs.Memory.{CallCount};

    ghost Value = { CallCount };

    ghost view = { λ c. record { failing = c.failing.items; made = c.made; faults = c.faults } };
}

impl Calls {
    pub(super) fn new(alloc: Global, failing: &[u64]) -> Result<Calls, NoMemory>
        ensures { IfOk result (λ c. c ≡ no_calls failing.now) }
    {
        Ok(Calls {
            failing: failing.to_vec(alloc)?,
            made: 0,
            faults: 0,
        })
    }

    /// Counts a call, and answers whether it is one that fails.
    pub(super) fn begin(&mut self) -> bool
        ensures fails { IsTrue result ↔ FailsNow self.old }
        ensures counted { self.new ≡ record self.old { made = next_count self.old.made } }
    {
        let call = self.made;
        self.made = self.made.saturating_add(1);
        self.failing.contains(&call)
    }

    /// Counts a fault.
    pub(super) fn fail(&mut self)
        ensures counted { self.new ≡ record self.old { faults = next_count self.old.faults } }
        ensures later { self.old.faults ≤ self.new.faults }
    {
        self.faults = self.faults.saturating_add(1);
    }
}
