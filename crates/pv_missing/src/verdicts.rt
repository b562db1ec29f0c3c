//! The verdicts of a document.

ghost use Rattle.std.specs.Prelude.{◌≡◌};

use pv_tree::{Path, Verdict};
use std::marker::Model;

/// The verdicts of a document's lists, in document order, and the path of the first Impossible
/// list, if any.
#[derive(Debug, Drop)]
pub struct Verdicts {
    verdicts: Vec<Verdict>,
    first: Option<Path>,
}

impl Model for Verdicts {
    ghost use Rattle.pv_missing.specs.Verdicts.{PlainVerdicts};

    ghost Value = { PlainVerdicts };

    ghost view = { λ v. record { verdicts = v.verdicts.items; first = v.first } };
}

impl Verdicts {
    ghost use Rattle.std.specs.Prelude.{length, slice_get};
    ghost use Rattle.std.specs.Option.{option_copied};
    ghost use Rattle.pv_missing.specs.Verdicts.{possible_in};

    /// The verdicts, and the path of the first Impossible list; they aren't copied.
    pub fn of(verdicts: Vec<Verdict>, first: Option<Path>) -> Verdicts
        ensures { result ≡ record { verdicts = verdicts.items; first = first } }
    {
        Verdicts { verdicts, first }
    }

    /// The number of lists.
    pub fn len(&self) -> u64
        ensures { result ≡ length self.now.verdicts }
    {
        self.verdicts.len() as u64
    }

    /// The verdict of the list of this number, counted from 0 in document order.
    pub fn at(&self, k: u64) -> Option<Verdict>
        ensures { result ≡ slice_get self.now.verdicts k }
    {
        self.verdicts.get(k as usize).copied()
    }

    /// The number of Possible lists.
    pub fn left(&self) -> u64
        ensures { result ≡ possible_in self.now.verdicts }
    {
        self.verdicts
            .iter()
            .filter(|v| matches!(v, Verdict::Possible))
            .count() as u64
    }

    /// The path of the first Impossible list.
    pub fn first_impossible(&self) -> Option<&Path>
        ensures { option_copied result ≡ self.now.first }
    {
        self.first.as_ref()
    }
}
