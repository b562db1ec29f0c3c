//! Whether a word is possible.

ghost use Rattle.std.specs.Prelude.{◌↔◌, IfOk, IsTrue, length, map};
ghost use Rattle.pv_model.specs.PlainForms.{plain_token};
ghost use Rattle.pv_productive.specs.PlainForms.{dtd_of};
ghost use Rattle.pv_missing.specs.LiveWords.{AreProductiveTokens};
ghost use Rattle.pv_missing.specs.PlainForms.{plain_of};
ghost use Rattle.pv_missing.specs.Widths.{FitsWeights};
ghost use Rattle.pv_missing.specs.WordVerdicts.{IsPossibleAt};

use crate::owners::ListOwner;
use crate::weighing::spans_by;
use pv_chars::NoMemory;
use pv_model::Token;
use pv_productive::NO_SIZE;
use std::alloc::Global;

/// Whether the owner's site derives the whole word.
pub(crate) fn derives(
    alloc: Global,
    owner: &ListOwner<'_>,
    word: &[Token],
) -> Result<bool, NoMemory>
    requires productive { AreProductiveTokens (dtd_of owner.now.layout.now.grammar.now)
        (map plain_token word.now) }
    requires fits { FitsWeights (dtd_of owner.now.layout.now.grammar.now) (length word.now) }
    ensures { IfOk result (λ b. IsTrue b ↔
        IsPossibleAt (dtd_of owner.now.layout.now.grammar.now) (plain_of owner.now.of)
        (map plain_token word.now)) }
{
    let spans = spans_by(alloc, owner.layout, word)?;
    Ok(spans.value(owner.site(), 0, word.len() as u32) < NO_SIZE)
}
