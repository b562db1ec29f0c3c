//! Whether the word of an element's list is one that its content model allows.

ghost use Rattle.std.specs.Prelude.{◌≡◌, ◌↔◌, ℕ, List, map, Option, IsTrue, IfOk};
ghost use Rattle.std.specs.Option.{option_copied, option_map, option_and_then};
ghost use Rattle.pv_model.specs.PlainForms.{plain_model, plain_token};
ghost use Rattle.pv_dtd.specs.Hedge.{token};
ghost use Rattle.pv_dtd.specs.Plain.{model_of, number_of};
ghost use Rattle.pv_dtd.specs.PlainForms.{plain_dtd};
ghost use Rattle.pv_tree.specs.Lists.{IsOwnValid};
ghost use Rattle.pv_tree.specs.Plain.{Forest, no_trees};
ghost use Rattle.pv_tree.specs.Words.{word_of};
ghost use Rattle.pv_tree.specs.declared.nodes.Mark.{Mark};

use pv_chars::NoMemory;
use pv_dtd::Dtd;
use pv_model::{ContentModel, LaidModel, Token};
use std::alloc::Global;

/// What elements of this token may have in them, where the DTD declares their name.
pub fn model_by(dtd: &Dtd, of: Token) -> Option<&LaidModel>
    requires { (name : List ℕ) × plain_token of ≡ token (number_of (plain_dtd dtd.now) name) }
    ensures { (name : List ℕ) → plain_token of ≡ token (number_of (plain_dtd dtd.now) name) →
        option_map plain_model (option_copied result)
        ≡ option_and_then (model_of (plain_dtd dtd.now)) (number_of (plain_dtd dtd.now) name) }
{
    match of {
        Token::Name(id) => dtd.laid_model_of(id),
        Token::Text => None,
        Token::Other => None,
    }
}

/// Whether kids of this word fit an element of this content model by themselves, where it has one.
pub fn fits(
    alloc: Global,
    dtd: &Dtd,
    model: Option<&LaidModel>,
    has_kids: bool,
    word: &[Token],
) -> Result<bool, NoMemory>
    ensures { (owner : Option ℕ) (kids : Forest Mark)
        → option_map plain_model (option_copied model.entry)
        ≡ option_and_then (model_of (plain_dtd dtd.now)) owner
        → IsTrue has_kids ↔ (kids ≡ no_trees → ⊥)
        → map plain_token word.now ≡ word_of (plain_dtd dtd.now) kids
        → IfOk result (λ fits. IsTrue fits ↔ IsOwnValid (plain_dtd dtd.now) owner kids) }
{
    let Some(model) = model else {
        return Ok(false);
    };
    if let ContentModel::Empty = model.model() {
        return Ok(!has_kids);
    }
    model.allows(alloc, dtd.count(), word).map_err(|_| NoMemory)
}
