//! Contents of names that are free, and the tokens that they take.

ghost use Rattle.std.specs.Prelude.{◌≡◌, ◌↔◌, IfSome, IsTrue};
ghost use Rattle.pv_model.specs.PlainForms.{plain_token};
ghost use Rattle.pv_productive.specs.PlainForms.{dtd_of};
ghost use Rattle.pv_missing.specs.LiveWords.{IsProductiveToken};
ghost use Rattle.pv_reach.specs.Plans.{IsPlan};
ghost use Rattle.pv_reach.specs.TokensTaken.{ContentTakes, IsFreeContent};

use crate::columns::merging::column_head;
use crate::plan::Plan;
use pv_columns::has;
use pv_model::{NameId, Token};
use pv_productive::Grammar;
use std::marker::Model;

/// The content of a name that is free: it derives each word of tokens that it takes. Whoever keeps
/// a word, and how many of its tokens aren't taken, needs no more to tell whether the content
/// derives it. Contracts see whose content it is.
#[derive(Drop)]
pub struct FreeContent<'a> {
    grammar: &'a Grammar,
    id: NameId,
    /// The set of the tokens that it takes.
    row: &'a [u64],
}

impl<'a> Model for FreeContent<'a> {
    ghost use Rattle.pv_reach.specs.Contents.{ContentOf, content_code};

    ghost Value = { ContentOf };

    ghost coded = { content_code };

    ghost use Rattle.pv_productive.specs.PlainForms.{dtd_of};
    ghost use Rattle.pv_reach.specs.TokensTaken.{IsContentSet};

    ghost view = { λ c. record { grammar = c.grammar.now; name = c.id.0 } };

    ghost invariant = { λ c. IsContentSet (dtd_of c.grammar.now) c.id.0 c.row.now };
}

impl<'a> FreeContent<'a> {
    /// The content of a name, where it is free, by a plan of the grammar.
    pub(crate) fn of(grammar: &'a Grammar, plan: &'a Plan, id: NameId) -> Option<FreeContent<'a>>
        requires { IsPlan (dtd_of grammar.now) plan.now }
        ensures free { IfSome result (λ _. IsFreeContent (dtd_of grammar.now) id.0) }
        ensures content { IfSome result (λ content.
            content ≡ record { grammar = grammar.now; name = id.0 }) }
    {
        if id.0 >= grammar.dtd().count() {
            return None;
        }
        let column = column_head(&plan.heads, id.0 as usize);
        let Some(row) = plan.free.set_at(column) else {
            return None;
        };
        Some(FreeContent { grammar, id, row })
    }

    /// Whether the content takes the token: one bit is read.
    pub fn takes(&self, token: Token) -> bool
        ensures { IsProductiveToken (dtd_of self.now.grammar) (plain_token token) →
            IsTrue result ↔
            ContentTakes (dtd_of self.now.grammar) self.now.name (plain_token token) }
    {
        has(self.row, token)
    }
}
