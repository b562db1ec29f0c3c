//! How many layers have the tokens of rules.

ghost use Rattle.std.specs.Prelude.{◌≡◌, ◌<◌, ◌/◌, ◌^◌, Some};
ghost use Rattle.pv_model.specs.declared.models.Token.{Token as PlainToken};
ghost use Rattle.pv_columns.specs.Sets.{AreTokensBelow};
ghost use Rattle.pv_columns.specs.Tokens.{token_number};

use crate::rules::ColumnRule;
use crate::tokens::token_number;
use pv_model::Token;

/// How many layers have a token, if there is one.
fn layers_for(token: Option<Token>) -> u64
    ensures below { (t : PlainToken) → token ≡ Some t → token_number t / 64 < result }
    ensures few { result < 2 ^ 32 }
{
    match token {
        None => 0,
        Some(token) => token_number(token) / 64 + 1,
    }
}

/// How many layers have the tokens of all rules.
pub(crate) fn layer_count(rules: &[ColumnRule]) -> u64
    ensures below { AreTokensBelow result rules.now }
    ensures few { result < 2 ^ 32 }
{
    let mut count = 0;
    for rule in rules {
        let needed = layers_for(rule.token);
        if count < needed {
            count = needed;
        }
    }
    count
}
