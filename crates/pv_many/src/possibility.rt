//! Whether inserting elements can make documents valid: all are judged by one grammar, whose rules
//! are laid out once, when a document is first not valid.

ghost use Rattle.std.specs.Prelude.{◌≡◌};
ghost use Rattle.pv_commands.specs.Check.{IsCheckCourse};
ghost use Rattle.pv_commands.specs.Returns.{BehindDocument};
ghost use Rattle.pv_opening.specs.Returns.{TakesCourse};
ghost use Rattle.pv_productive.specs.PlainForms.{dtd_of};

use crate::inquiry::Inquiry;
use crate::planner::Planner;
use pv_commands::check::{Keeping, check_by};
use pv_opening::{Response, Status, Stop, refuse_document};
use pv_steps::Steps;
use std::alloc::Global;
use std::sync::ledger::Ledger;
use std::thread::Threads;

// Whether inserting elements can make the document that the bytes are valid, for which there may be
// no plan so far.
fn check_of_text<L: Ledger>(
    rt: &(impl Threads + Sync),
    planner: &mut Planner,
    root: &[u8],
    bytes: &[u8],
    steps: &mut Steps<L>,
) -> Result<Response, Stop>
    ensures takes { TakesCourse
        (BehindDocument IsCheckCourse root.now (dtd_of planner.old, bytes.now)) result }
    ensures same { planner.new ≡ planner.old }
{
    match planner.find_valid(root, bytes) {
        Ok(true) => Ok(Response::with_line(planner.alloc(), Status::Done, b"valid")?),
        Ok(false) => {
            let judge = planner.judge();
            check_by(rt, &judge, root, bytes, Keeping::Freed, steps)
        }
        Err(error) => Err(refuse_document(planner.alloc(), error)),
    }
}

/// Whether inserting elements can make documents valid, by one grammar.
#[derive(Drop)]
pub struct Possibility<L: Ledger> {
    pub planner: Planner,
    pub steps: Steps<L>,
}

impl<L: Ledger> Inquiry for Possibility<L> {
    ghost use Rattle.pv_many.specs.declared.requests.Question.TheVariants.{Check};
    ghost use Rattle.pv_productive.specs.PlainForms.{dtd_of};

    ghost question = { λ _. Check };

    ghost dtd = { λ s. dtd_of s.planner };

    fn answer<R: Threads + Sync>(
        &mut self,
        rt: &R,
        _alloc: Global,
        root: &[u8],
        bytes: Vec<u8>,
    ) -> Result<Response, Stop> {
        check_of_text(rt, &mut self.planner, root, &bytes, &mut self.steps)
    }
}
