//! Reads on, one step after the other.

ghost use Rattle.std.specs.Prelude.{◌≡◌, ◌≢◌, ◌<◌, ◌-◌, ◌∷◌, [], length, drop, false, IfOk, IfErr};
ghost use Rattle.std.specs.Prelude.{OnOk, IsTrue};
ghost use Rattle.pv_params.specs.Meaning.{Outcome, meets};
ghost use Rattle.pv_params.specs.PlainBytes.{IsBehindRun};
ghost use Rattle.pv_params.specs.OpenTexts.{plain_so_far, plain_open_text, stacked};
ghost use Rattle.pv_params.specs.Answers.{Tells};
ghost use Rattle.pv_params.specs.OpenTexts.{LeadToOutcome, work_left};

use crate::errors::ParamError;
use crate::items::item_at;
use crate::names::NamesBeingRead;
use crate::open_texts::{OpenText, copy_unread, handle, mode_behind};
use crate::plain_bytes::behind_run;
use crate::state::State;
use std::alloc::Global;

/// The texts that are being read, the innermost last, the names of those that are entities', and
/// what was read so far.
#[derive(Drop)]
pub struct TextStack {
    pub texts: Vec<OpenText>,
    pub names: NamesBeingRead,
    pub so_far: State,
}

impl TextStack {
    // Reads the item at the front of the rest of this text.
    fn read(&mut self, alloc: Global, top: OpenText) -> Result<(), ParamError>
        requires { (plain_open_text top).rest ≢ [] }
        ensures leads { OnOk result ((o : Outcome) → LeadToOutcome (stacked self.new.texts.items)
            self.new.names (plain_so_far self.new.so_far) o →
            LeadToOutcome (plain_open_text top ∷ stacked self.old.texts.items) self.old.names
            (plain_so_far self.old.so_far) o) }
        ensures stops { IfErr result (Tells (λ fault. LeadToOutcome (plain_open_text top ∷ stacked
            self.old.texts.items) self.old.names (plain_so_far self.old.so_far) (meets fault))) }
        ensures less { OnOk result (work_left (stacked self.new.texts.items) (plain_so_far
            self.new.so_far) < work_left (plain_open_text top ∷ stacked self.old.texts.items)
            (plain_so_far self.old.so_far)) }
    {
        let Some((item, more)) = item_at(top.mode, top.rest()) else {
            return match copy_unread(&mut self.so_far, top.mode, top.rest()) {
                Ok(()) => {
                    self.names.leave(top.of_entity);
                    self.so_far.finish(top.ending)?;
                    Ok(())
                }
                Err(error) => Err(error),
            };
        };
        let left = more.len();
        let behind = mode_behind(&item, top.mode);
        match handle(alloc, &mut self.so_far, &mut self.names, top.mode, item) {
            Ok(None) => {
                self.texts.push(top.behind(behind, left))?;
                Ok(())
            }
            Ok(Some(inner)) => {
                self.texts.push(top.behind(behind, left))?;
                self.texts.push(inner)?;
                Ok(())
            }
            Err(error) => Err(error),
        }
    }

    // Copies the bytes at the front of the rest of this text that are items by themselves, down to
    // so many bytes that are left.
    fn copy(&mut self, top: OpenText, left: usize) -> Result<(), ParamError>
        requires run { IsBehindRun (plain_open_text top).mode (plain_open_text top).rest
            (drop (length top.text.items - left) top.text.items) }
        requires some { left < length (plain_open_text top).rest }
        ensures leads { OnOk result ((o : Outcome) → LeadToOutcome (stacked self.new.texts.items)
            self.new.names (plain_so_far self.new.so_far) o →
            LeadToOutcome (plain_open_text top ∷ stacked self.old.texts.items) self.old.names
            (plain_so_far self.old.so_far) o) }
        ensures stops { IfErr result (Tells (λ fault. LeadToOutcome (plain_open_text top ∷ stacked
            self.old.texts.items) self.old.names (plain_so_far self.old.so_far) (meets fault))) }
        ensures less { OnOk result (work_left (stacked self.new.texts.items) (plain_so_far
            self.new.so_far) < work_left (plain_open_text top ∷ stacked self.old.texts.items)
            (plain_so_far self.old.so_far)) }
    {
        let rest = top.rest();
        self.so_far.put(rest.split_at(rest.len() - left).0)?;
        let mode = top.mode;
        self.texts.push(top.behind(mode, left))?;
        Ok(())
    }

    // Reads on in this text.
    fn go_on(&mut self, alloc: Global, top: OpenText) -> Result<(), ParamError>
        requires { (plain_open_text top).rest ≢ [] }
        ensures leads { OnOk result ((o : Outcome) → LeadToOutcome (stacked self.new.texts.items)
            self.new.names (plain_so_far self.new.so_far) o →
            LeadToOutcome (plain_open_text top ∷ stacked self.old.texts.items) self.old.names
            (plain_so_far self.old.so_far) o) }
        ensures stops { IfErr result (Tells (λ fault. LeadToOutcome (plain_open_text top ∷ stacked
            self.old.texts.items) self.old.names (plain_so_far self.old.so_far) (meets fault))) }
        ensures less { OnOk result (work_left (stacked self.new.texts.items) (plain_so_far
            self.new.so_far) < work_left (plain_open_text top ∷ stacked self.old.texts.items)
            (plain_so_far self.old.so_far)) }
    {
        let left = behind_run(top.mode, top.rest()).len();
        if left < top.rest().len() {
            self.copy(top, left)
        } else {
            self.read(alloc, top)
        }
    }

    /// One step, where a text is being read; whether one was.
    pub fn step(&mut self, alloc: Global) -> Result<bool, ParamError>
        ensures leads { IfOk result (λ more. (o : Outcome) →
            LeadToOutcome (stacked self.new.texts.items) self.new.names
            (plain_so_far self.new.so_far) o →
            LeadToOutcome (stacked self.old.texts.items) self.old.names
            (plain_so_far self.old.so_far) o) }
        ensures stops { IfErr result (Tells (λ fault. LeadToOutcome (stacked self.old.texts.items)
            self.old.names (plain_so_far self.old.so_far) (meets fault))) }
        ensures less { IfOk result (λ more. IsTrue more →
            work_left (stacked self.new.texts.items) (plain_so_far self.new.so_far) < work_left
            (stacked self.old.texts.items) (plain_so_far self.old.so_far)) }
        ensures ended { IfOk result (λ more. more ≡ false → self.new.texts.items ≡ []) }
    {
        let Some(top) = self.texts.pop() else {
            return Ok(false);
        };
        if top.rest().is_empty() {
            self.names.leave(top.of_entity);
            self.so_far.finish(top.ending)?;
        } else {
            return match self.go_on(alloc, top) {
                Ok(()) => Ok(true),
                Err(error) => Err(error),
            };
        }
        Ok(true)
    }
}
