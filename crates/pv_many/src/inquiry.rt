//! One question of many documents, by one DTD: what is known of the DTD is found once.

ghost use Rattle.std.specs.Thread.{IsSync};
ghost use Rattle.std.specs.Prelude.{◌≡◌};
ghost use Rattle.pv_commands.specs.Returns.{BehindDocument};
ghost use Rattle.pv_dtd.specs.Plain.{PlainDtd};
ghost use Rattle.pv_dtd.specs.PlainForms.{plain_dtd};
ghost use Rattle.pv_many.specs.Answers.{Does};
ghost use Rattle.pv_many.specs.declared.requests.Question.{Question};
ghost use Rattle.pv_opening.specs.Returns.{TakesCourse};

use pv_commands::valid::valid;
use pv_dtd::Dtd;
use pv_opening::{Fetched, Response, Stop};
use std::alloc::Global;
use std::thread::Threads;

/// A question of many documents, by one DTD.
pub trait Inquiry {
    /// The question.
    ghost question: { Self → Question };

    /// The DTD.
    ghost dtd: { Self → PlainDtd };

    /// The answer for a document of these bytes, which are given back.
    fn answer<R: Threads + Sync>(
        &mut self,
        rt: &R,
        alloc: Global,
        root: &[u8],
        bytes: Vec<u8>,
    ) -> Result<Response, Stop>
        requires { IsSync R.row }
        ensures takes { TakesCourse (BehindDocument (Does (question self.old)) root.now
            (dtd self.old, bytes.items)) result }
        ensures question { question self.new ≡ question self.old }
        ensures dtd { dtd self.new ≡ dtd self.old };
}

/// Whether documents are valid: a DTD, beside the bytes of the last document.
#[derive(Drop)]
pub struct Validation {
    fetched: Fetched,
}

impl Validation {
    /// Validation by this DTD.
    pub fn by(alloc: Global, dtd: Dtd) -> Validation
        ensures question { ⟦<Validation as Inquiry>⟧.question result ≡ Question.Valid }
        ensures dtd { ⟦<Validation as Inquiry>⟧.dtd result ≡ plain_dtd dtd }
    {
        let bytes = Vec::new(alloc);
        Validation {
            fetched: Fetched { dtd, bytes },
        }
    }
}

impl Inquiry for Validation {
    ghost use Rattle.pv_dtd.specs.PlainForms.{plain_dtd};
    ghost use Rattle.pv_many.specs.declared.requests.Question.TheVariants.{Valid};

    ghost question = { λ _. Valid };

    ghost dtd = { λ s. plain_dtd s.fetched.dtd };

    fn answer<R: Threads + Sync>(
        &mut self,
        _rt: &R,
        alloc: Global,
        root: &[u8],
        bytes: Vec<u8>,
    ) -> Result<Response, Stop> {
        self.fetched.bytes = bytes;
        let answer = valid(alloc, &self.fetched, root);
        self.fetched.bytes = Vec::new(alloc);
        answer
    }
}
