//! What a walk over lists has added up.

ghost use Rattle.std.specs.Prelude.{◌≡◌, ◌≤◌};
ghost use Rattle.pv_missing.specs.Verdicts.{is_possible};
ghost use Rattle.pv_rules.specs.Derivations.{heaviest};
ghost use Rattle.pv_complete.specs.Loads.{UsesVerdict};

use pv_missing::Verdicts;
use pv_rules::HEAVIEST;
use pv_tree::Verdict;

fn is_possible(verdict: Verdict) -> bool
    ensures { result ≡ is_possible verdict }
{
    match verdict {
        Verdict::Possible => true,
        Verdict::Valid | Verdict::Impossible => false,
    }
}

/// Uses the verdict that is next, if there is one, and tells whether it is Possible.
pub fn next_is_possible(verdicts: &Verdicts, used: &mut u64) -> bool
    ensures { UsesVerdict verdicts.now.verdicts used.old used.new result }
{
    if *used >= verdicts.len() {
        return false;
    }
    let Some(verdict) = verdicts.at(*used) else {
        return false;
    };
    *used += 1;
    is_possible(verdict)
}

/// The number of verdicts that are used, and the sum of the weights so far, cut.
#[derive(Drop)]
pub struct Load {
    pub used: u64,
    pub total: u32,
    ghost bounded: { total ≤ heaviest },
}

impl Load {
    ghost use Rattle.std.specs.Prelude.{◌≡◌, ◌+◌, min};

    /// No list so far.
    pub fn new() -> Load
        ensures used { result.used ≡ 0 }
        ensures total { result.total ≡ 0 }
    {
        Load { used: 0, total: 0 }
    }

    /// Uses the verdict that is next, if there is one, and tells whether it is Possible.
    pub fn takes_possible(&mut self, verdicts: &Verdicts) -> bool
        ensures taken { UsesVerdict verdicts.now.verdicts self.old.used self.new.used result }
        ensures total { self.new.total ≡ self.old.total }
    {
        next_is_possible(verdicts, &mut self.used)
    }

    /// Adds the weight of a list.
    pub fn add(&mut self, weight: u32)
        requires { weight ≤ heaviest }
        ensures used { self.new.used ≡ self.old.used }
        ensures total { self.new.total ≡ min heaviest (self.old.total + weight) }
    {
        self.total = (self.total + weight).min(HEAVIEST);
    }
}
