//! Whether a word is one that a content model allows.

ghost use Rattle.std.specs.Prelude.{◌≡◌, ◌↔◌, IsTrue, true, IfOk, map};
ghost use Rattle.std.specs.List.{AllByRecursion};
ghost use Rattle.pv_model.specs.Models.{Allows, IsOfAny};
ghost use Rattle.pv_model.specs.PlainForms.{plain_model, plain_token};

use crate::children::has_children;
use crate::mixed::has_mixed;
use crate::models::{ContentModel, NoMemory, Token};
use std::alloc::Global;

/// Whether the word is one that the model allows (XML 1.0, section 3.2), where the names below
/// `declared` are declared. A content particle need not be deterministic.
///
/// `NoMemory` says that there was no memory for the match. An empty word takes none, and EMPTY and
/// ANY take none. In mixed content only a word of 1,024 tokens or more takes memory, for a set of
/// the listed names, where these are 256 or more. In a content particle any other word takes a
/// byte for each name and each repetition, and a word of 64 tokens or more, in a particle with 64
/// of these or more, takes memory for the particle laid out in pairs and for the places of its
/// names.
///
/// In a deterministic particle the time grows with the word and the model together, and not with
/// their product; `LaidModel` spares the time for the model. A word of a particle that is laid out
/// takes, for each token, the steps from the top of the pairs to the places that the names so far
/// can end with and to those where the token's name may follow: in a deterministic particle one
/// place, and as many levels as the logarithm of its size and its depth ask. In another these may
/// be all places; where they are, over the tokens so far, more than a sixteenth, the particle is
/// walked for each token instead. Matching ends at the first token that no allowed word has there.
pub fn matches(
    alloc: Global,
    model: &ContentModel,
    declared: u32,
    word: &[Token],
) -> Result<bool, NoMemory>
    ensures { IfOk result (λ b. IsTrue b ↔
        Allows declared (plain_model model.now) (map plain_token word.now)) }
{
    match model {
        ContentModel::Empty => Ok(word.is_empty()),
        ContentModel::Any => Ok(are_declared(declared, word)),
        ContentModel::Mixed(names) => has_mixed(alloc, names.as_slice(), word),
        ContentModel::Children(part) => has_children(alloc, part, word),
    }
}

/// Whether each token is data or an element of a declared name.
fn are_declared(declared: u32, word: &[Token]) -> bool
    ensures { IsTrue result ↔ AllByRecursion (IsOfAny declared) (map plain_token word.now) }
{
    for token in word {
        if !is_declared(declared, *token) {
            return false;
        }
    }
    true
}

fn is_declared(declared: u32, token: Token) -> bool
    ensures { IsTrue result ↔ IsOfAny declared (plain_token token) }
{
    match token {
        Token::Name(name) => name.0 < declared,
        Token::Text => true,
        Token::Other => false,
    }
}
