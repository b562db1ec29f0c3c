//! Whether a text is a valid document whose lists can all have verdicts: found in one pass, without
//! a tree and without a plan. The pass ends at the first list of which that isn't so.

ghost use Rattle.std.specs.Prelude.{◌≡◌, ◌↔◌, ℕ, List, Option, IfErr, IfOk, IsTrue, map};
ghost use Rattle.std.specs.Option.{option_and_then, option_copied, option_map};
ghost use Rattle.pv_dtd.specs.Hedge.{token};
ghost use Rattle.pv_dtd.specs.Plain.{model_of, number_of};
ghost use Rattle.pv_dtd.specs.PlainForms.{plain_dtd};
ghost use Rattle.pv_lists.specs.Judgements.{IsEnded};
ghost use Rattle.pv_many.specs.ValidTexts.{IsValidContent, IsValidRoot, IsValidText};
ghost use Rattle.pv_many.specs.declared.valid_text.Doubt.TheVariants.{NoMemory as no_memory};
ghost use Rattle.pv_model.specs.PlainForms.{plain_model, plain_token};
ghost use Rattle.pv_read.specs.Errors.{Refuses};
ghost use Rattle.pv_read.specs.Meaning.{DocumentMeans};
ghost use Rattle.pv_tree.specs.Marks.{blank_mark};
ghost use Rattle.pv_tree.specs.Lists.{IsOwnValid};
ghost use Rattle.pv_tree.specs.Plain.{Forest, Tree, forest_of, no_trees};
ghost use Rattle.pv_tree.specs.Words.{word_of};
ghost use Rattle.pv_tree.specs.declared.nodes.Mark.{Mark};

use pv_chars::NoMemory;
use pv_dtd::Dtd;
use pv_lists::{ListJudge, OpenList, OpenLists, ReadError, read_lists};
use pv_missing::is_narrow;
use pv_model::{ContentModel, LaidModel, Token};
use pv_read::{DocError, MAX_DEPTH, MAX_DOC_BYTES};
use std::alloc::Global;

/// Why a pass ended at a list.
#[derive(Debug, Drop)]
pub enum Doubt {
    /// The list isn't valid by itself, or it is too wide for a verdict.
    List,
    /// There was too little memory to go on.
    NoMemory,
}

impl From<NoMemory> for Doubt {
    ghost from_gives = { λ _ e. e ≡ no_memory };

    fn from(_: NoMemory) -> Doubt {
        Doubt::NoMemory
    }
}

/// Lets lists pass that are valid by themselves and not too wide for a verdict.
#[derive(Drop)]
pub struct ValidLists<'a> {
    alloc: Global,
    dtd: &'a Dtd,
}

impl<'a> ValidLists<'a> {
    // The content model of elements of this token, where the DTD declares their name.
    fn model_by(&self, of: Token) -> Option<&LaidModel>
        requires { (name : List ℕ) ×
            plain_token of ≡ token (number_of (plain_dtd self.now.dtd.now) name) }
        ensures { (name : List ℕ) →
            plain_token of ≡ token (number_of (plain_dtd self.now.dtd.now) name) →
            option_map plain_model (option_copied result) ≡ option_and_then
            (model_of (plain_dtd self.now.dtd.now)) (number_of (plain_dtd self.now.dtd.now) name) }
    {
        match of {
            Token::Name(id) => self.dtd.laid_model_of(id),
            Token::Text => None,
            Token::Other => None,
        }
    }

    // Whether kids of this word fit an element of this content model by themselves, where it has
    // one.
    fn fits(
        &self,
        model: Option<&LaidModel>,
        has_kids: bool,
        word: &[Token],
    ) -> Result<bool, NoMemory>
        ensures { (owner : Option ℕ) (kids : Forest Mark)
            → option_map plain_model (option_copied model.entry)
            ≡ option_and_then (model_of (plain_dtd self.now.dtd.now)) owner
            → IsTrue has_kids ↔ (kids ≡ no_trees → ⊥)
            → map plain_token word.now ≡ word_of (plain_dtd self.now.dtd.now) kids
            → IfOk result (λ fits. IsTrue fits ↔
            IsOwnValid (plain_dtd self.now.dtd.now) owner kids) }
    {
        let Some(model) = model else {
            return Ok(false);
        };
        if let ContentModel::Empty = model.model() {
            return Ok(!has_kids);
        }
        model
            .allows(self.alloc, self.dtd.count(), word)
            .map_err(|_| NoMemory)
    }

    // Whether the list of this element passes, whose word this is.
    fn passes(&self, list: &OpenList<'_, ()>, word: &[Token]) -> Result<bool, NoMemory>
        requires { (kids : List (Tree Mark)) ×
            IsEnded (plain_dtd self.now.dtd.now) list.now word.now kids }
        ensures { (kids : List (Tree Mark)) →
            IsEnded (plain_dtd self.now.dtd.now) list.now word.now kids →
            IfOk result (λ passes. IsTrue passes →
            IsValidContent (plain_dtd self.now.dtd.now) list.now.name.now (forest_of kids)) }
    {
        if !is_narrow(self.dtd, word.len() as u64) {
            return Ok(false);
        }
        self.fits(self.model_by(list.token), list.kids > 0, word)
    }
}

impl<'a> ListJudge for ValidLists<'a> {
    ghost use Rattle.pv_dtd.specs.PlainForms.{plain_dtd};
    ghost use Rattle.pv_many.specs.ValidTexts.{valid_lists_by};

    type Found = ();

    type Before = ();

    type Error = Doubt;

    ghost judgement = { λ s. valid_lists_by (plain_dtd s.dtd.now) };

    fn dtd(&self) -> &Dtd {
        self.dtd
    }

    fn none(&self) {}

    fn before(&self, _found: &()) {}

    fn judge(
        &self,
        list: &OpenList<'_, ()>,
        word: &[Token],
        _outer: &[OpenList<'_, ()>],
        _found: &mut (),
    ) -> Result<(), Doubt> {
        if self.passes(list, word)? {
            Ok(())
        } else {
            Err(Doubt::List)
        }
    }
}

// Whether the list of the document node passes, where its root has been read: the root has this
// name.
fn is_root(dtd: &Dtd, lists: &OpenLists<'_, (), ()>, root: &[u8]) -> bool
    ensures { IsTrue result → IsValidRoot (plain_dtd dtd.now) root.now lists.now.inner.name.now }
{
    lists.inner.name == root && is_narrow(dtd, 1)
}

/// Whether the bytes are seen to be a valid document, of whose lists none is too wide for a
/// verdict. What is no document is refused where no list before its fault ends the pass.
pub fn is_valid_text(alloc: Global, dtd: &Dtd, root: &[u8], bytes: &[u8]) -> Result<bool, DocError>
    ensures valid { IfOk result (λ valid. IsTrue valid →
        IsValidText (plain_dtd dtd.now) root.now bytes.now) }
    ensures refused { IfErr result (λ error.
        Refuses (DocumentMeans blank_mark root.now bytes.now) error) }
{
    let lists = ValidLists { alloc, dtd };
    match read_lists(alloc, &lists, Some(MAX_DEPTH), MAX_DOC_BYTES, root, bytes) {
        Ok(read) => Ok(is_root(dtd, &read, root)),
        Err(ReadError::Document(error)) => Err(error),
        Err(ReadError::Judge(Doubt::List)) => Ok(false),
        Err(ReadError::Judge(Doubt::NoMemory)) => Err(DocError::NoMemory),
    }
}
