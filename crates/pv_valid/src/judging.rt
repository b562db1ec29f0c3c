//! Whether the list of an element is valid by itself, where it ends.

ghost use Rattle.std.specs.Prelude.{◌↔◌, List, IsTrue, IfOk};
ghost use Rattle.pv_dtd.specs.Plain.{number_of};
ghost use Rattle.pv_dtd.specs.PlainForms.{plain_dtd};
ghost use Rattle.pv_tree.specs.Lists.{IsOwnValid};
ghost use Rattle.pv_tree.specs.Plain.{Tree, forest_of};
ghost use Rattle.pv_tree.specs.declared.nodes.Mark.{Mark};
ghost use Rattle.pv_lists.specs.Judgements.{IsEnded};

use crate::fitting::{fits, model_by};
use pv_chars::NoMemory;
use pv_dtd::Dtd;
use pv_lists::{ListJudge, OpenList, places_in};
use pv_model::Token;
use pv_tree::Path;
use std::alloc::Global;

/// Finds the first list that isn't valid by itself. Where an element begins it is noted whether one
/// was found before.
#[derive(Drop)]
pub struct Validity<'a> {
    pub alloc: Global,
    pub dtd: &'a Dtd,
}

impl<'a> Validity<'a> {
    // Whether the list of this element is valid by itself, whose word this is.
    fn is_valid(&self, list: &OpenList<'_, bool>, word: &[Token]) -> Result<bool, NoMemory>
        requires { (kids : List (Tree Mark)) ×
            IsEnded (plain_dtd self.now.dtd.now) list.now word.now kids }
        ensures { (kids : List (Tree Mark)) →
            IsEnded (plain_dtd self.now.dtd.now) list.now word.now kids →
            IfOk result (λ valid. IsTrue valid ↔ IsOwnValid (plain_dtd self.now.dtd.now)
            (number_of (plain_dtd self.now.dtd.now) list.now.name.now) (forest_of kids)) }
    {
        let model = model_by(self.dtd, list.token);
        fits(self.alloc, self.dtd, model, list.kids > 0, word)
    }
}

impl<'a> ListJudge for Validity<'a> {
    ghost use Rattle.pv_dtd.specs.PlainForms.{plain_dtd};
    ghost use Rattle.pv_valid.specs.Validity.{validity_by};

    type Found = Option<Path>;

    type Before = bool;

    type Error = NoMemory;

    ghost judgement = { λ s. validity_by (plain_dtd s.dtd.now) };

    fn dtd(&self) -> &Dtd {
        self.dtd
    }

    fn none(&self) -> Option<Path> {
        None
    }

    fn before(&self, found: &Option<Path>) -> bool {
        found.is_some()
    }

    fn judge(
        &self,
        list: &OpenList<'_, bool>,
        word: &[Token],
        outer: &[OpenList<'_, bool>],
        found: &mut Option<Path>,
    ) -> Result<(), NoMemory> {
        if list.before {
            return Ok(());
        }
        if self.is_valid(list, word)? {
            return Ok(());
        }
        let places = places_in(self.alloc, outer)?;
        *found = Some(Path::new(self.alloc, &places)?);
        Ok(())
    }
}
