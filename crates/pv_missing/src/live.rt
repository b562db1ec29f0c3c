//! Live words.

ghost use Rattle.std.specs.Prelude.{List, ◌≡◌, ◌∷◌, [], IfOk, map};
ghost use Rattle.pv_model.specs.Plain.{PlainToken};
ghost use Rattle.pv_model.specs.PlainForms.{plain_token};
ghost use Rattle.pv_rules.specs.Rules.{IsKnownWord};
ghost use Rattle.pv_productive.specs.PlainForms.{dtd_of};
ghost use Rattle.pv_tree.specs.PlainForms.{forest};
ghost use Rattle.pv_tree.specs.Words.{word_of};
ghost use Rattle.pv_missing.specs.LiveWords.{IsLiveWord};

use pv_chars::NoMemory;
use pv_model::Token;
use pv_productive::Grammar;
use pv_tree::{Node, Tokens, word};
use std::alloc::Global;

/// The live word of some nodes: their word, with `Token::Other` in place of each name that isn't
/// productive.
pub fn live_word(alloc: Global, grammar: &Grammar, kids: &[Node]) -> Result<Tokens, NoMemory>
    ensures { IfOk result (λ live. IsLiveWord (dtd_of grammar.now)
        (word_of (dtd_of grammar.now) (forest kids.now)) (map plain_token live)) }
{
    let tokens = word(alloc, grammar.dtd(), kids)?;
    let live = live_tokens(alloc, grammar, tokens.as_slice())?;
    Ok(Tokens::of(live))
}

// The live word of a word.
fn live_tokens(alloc: Global, grammar: &Grammar, tokens: &[Token]) -> Result<Vec<Token>, NoMemory>
    requires { IsKnownWord (dtd_of grammar.now) (map plain_token tokens.now) }
    ensures { IfOk result (λ live. IsLiveWord (dtd_of grammar.now) (map plain_token tokens.now)
        (map plain_token live.items)) }
{
    let mut live = Vec::with_capacity(alloc, tokens.len())?;
    for token in tokens {
        live.push(live_token(grammar, *token))?;
    }
    Ok(live)
}

// The token that stands in a live word for this one.
fn live_token(grammar: &Grammar, token: Token) -> Token
    requires { IsKnownWord (dtd_of grammar.now) (plain_token token ∷ []) }
    ensures { (w live : List PlainToken) → IsLiveWord (dtd_of grammar.now) w live →
        IsLiveWord (dtd_of grammar.now) (plain_token token ∷ w) (plain_token result ∷ live) }
{
    match token {
        Token::Name(id) => {
            if grammar.is_productive(id) {
                token
            } else {
                Token::Other
            }
        }
        Token::Text => Token::Text,
        Token::Other => Token::Other,
    }
}
