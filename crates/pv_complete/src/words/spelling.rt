//! The pieces of a site over a word, put together move by move.

ghost use Rattle.std.specs.Prelude.{◌≡◌, ◌≤◌, ◌<◌, ◌++◌, ◌∷◌, [], ℕ, List, IfOk, OnOk, length, map};
ghost use Rattle.pv_model.specs.PlainForms.{plain_token};
ghost use Rattle.pv_model.specs.Plain.{PlainToken};
ghost use Rattle.pv_dtd.specs.Plain.{PlainDtd};
ghost use Rattle.pv_rules.specs.PlainForms.{plain_site};
ghost use Rattle.pv_rules.specs.Rules.{Goal, over};
ghost use Rattle.pv_productive.specs.PlainForms.{dtd_of};
ghost use Rattle.pv_span.specs.Weights.{weight_of};
ghost use Rattle.pv_complete.specs.Moves.{IsMove};
ghost use Rattle.pv_write.specs.PieceForms.{plain_pieces};
ghost use Rattle.pv_complete.specs.Spelling.{SpellsSpan};
ghost use Rattle.pv_complete.specs.Works.{Goes, IsNearer, CanSpell, goal_work};

use crate::words::moves::move_of;
use crate::words::pieces::{Move, Work};
use crate::words::spot::Spot;
use crate::words::word_weights::WordWeights;
use pv_chars::NoMemory;
use pv_rules::Site;
use pv_write::Piece;
use std::alloc::Global;

/// Makes a move of a site over a span: its pieces come next, and what it leads to is put on the
/// stack.
fn go(
    site: Site,
    from: u32,
    to: u32,
    step: Move,
    stack: &mut Vec<Work>,
    pieces: &mut Vec<Piece>,
) -> Result<(), NoMemory>
    requires { from < 4294967295 }
    ensures goes { OnOk result ((g : PlainDtd) (w : List PlainToken) (t : Goal → ℕ) →
        IsMove g w t (plain_site site) from to step →
        Goes g w t (stack.old.items ++ goal_work site from to ∷ []) (plain_pieces pieces.old.items)
        stack.new.items (plain_pieces pieces.new.items)) }
    ensures nearer { OnOk result ((g : PlainDtd) (w : List PlainToken) (t : Goal → ℕ) →
        IsMove g w t (plain_site site) from to step →
        IsNearer g w t (stack.old.items ++ goal_work site from to ∷ []) stack.new.items) }
{
    match step {
        Move::Kept => {
            pieces.push(Piece::Kept)?;
            Ok(())
        }
        Move::New(id) => {
            pieces.push(Piece::Start(id))?;
            stack.push(Work::End(id))?;
            stack.push(Work::Goal(Site::Content(id), from, to))?;
            Ok(())
        }
        Move::Text => {
            pieces.push(Piece::Kept)?;
            stack.push(Work::Goal(site, from + 1, to))?;
            Ok(())
        }
        Move::Nothing => Ok(()),
        Move::One(one) => {
            stack.push(Work::Goal(one, from, to))?;
            Ok(())
        }
        Move::Two(one, place, two) => {
            stack.push(Work::Goal(two, place, to))?;
            stack.push(Work::Goal(one, from, place))?;
            Ok(())
        }
    }
}

/// Finds the pieces of a work, or what they are put together from.
fn take(
    weights: &WordWeights<'_>,
    work: Work,
    stack: &mut Vec<Work>,
    pieces: &mut Vec<Piece>,
) -> Result<(), NoMemory>
    requires ready { CanSpell (dtd_of weights.now.grammar.now)
        (map plain_token weights.now.word.now)
        (weight_of weights.now.spans.now) work }
    requires short { length weights.now.word.now < 4294967295 }
    ensures goes { OnOk result (Goes (dtd_of weights.now.grammar.now)
        (map plain_token weights.now.word.now) (weight_of weights.now.spans.now)
        (stack.old.items ++ work ∷ []) (plain_pieces pieces.old.items)
        stack.new.items (plain_pieces pieces.new.items)) }
    ensures nearer { OnOk result (IsNearer (dtd_of weights.now.grammar.now)
        (map plain_token weights.now.word.now) (weight_of weights.now.spans.now)
        (stack.old.items ++ work ∷ []) stack.new.items) }
{
    match work {
        Work::End(id) => {
            pieces.push(Piece::End(id))?;
            Ok(())
        }
        Work::Goal(site, from, to) => {
            let spot = Spot {
                weights: *weights,
                site,
                from,
                to,
                weight: weights.spans.at(site, from, to),
            };
            let step = move_of(&spot);
            go(site, from, to, step, stack, pieces)
        }
    }
}

/// The pieces of a site over a span: they have as many new elements as it weighs.
///
/// Works stand on a stack of its own, so that new elements may stand in one another to any depth.
pub fn pieces_of(alloc: Global, spot: &Spot<'_>) -> Result<Vec<Piece>, NoMemory>
    requires { length spot.now.weights.word.now < 4294967295 }
    ensures { IfOk result (λ pieces. SpellsSpan (dtd_of spot.now.weights.grammar.now)
        (map plain_token spot.now.weights.word.now)
        spot.now.weight (over (plain_site spot.now.site) spot.now.from spot.now.to)
        (plain_pieces pieces.items)) }
{
    let mut pieces = Vec::new(alloc);
    let mut stack = Vec::new(alloc);
    stack.push(Work::Goal(spot.site, spot.from, spot.to))?;
    while let Some(work) = stack.pop() {
        take(&spot.weights, work, &mut stack, &mut pieces)?;
    }
    Ok(pieces)
}
