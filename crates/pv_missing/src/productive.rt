//! Words of productive names.

ghost use Rattle.std.specs.Prelude.{◌↔◌, IsTrue, map};
ghost use Rattle.pv_model.specs.PlainForms.{plain_token};
ghost use Rattle.pv_productive.specs.PlainForms.{dtd_of};
ghost use Rattle.pv_missing.specs.LiveWords.{AreProductiveTokens, IsProductiveToken};

use pv_model::Token;
use pv_productive::Grammar;

fn is_productive_token(grammar: &Grammar, token: Token) -> bool
    ensures { IsTrue result ↔ IsProductiveToken (dtd_of grammar.now) (plain_token token) }
{
    match token {
        Token::Name(id) => id.0 < grammar.dtd().names() && grammar.is_productive(id),
        Token::Text => true,
        Token::Other => true,
    }
}

/// Whether each name of a word is productive.
pub fn are_productive(grammar: &Grammar, word: &[Token]) -> bool
    ensures { IsTrue result ↔ AreProductiveTokens (dtd_of grammar.now) (map plain_token word.now) }
{
    for token in word {
        if !is_productive_token(grammar, *token) {
            return false;
        }
    }
    true
}
