//! The weight of a Possible list, added to those before it.

ghost use Rattle.std.specs.Prelude.{◌≡◌, ◌∷◌, [], List, ℕ, IfErr, OnOk};
ghost use Rattle.pv_productive.specs.PlainForms.{dtd_of};
ghost use Rattle.pv_tree.specs.Lists.{Listed};
ghost use Rattle.pv_tree.specs.PlainForms.{forest};
ghost use Rattle.pv_tree.specs.declared.nodes.Mark.{Mark};
ghost use Rattle.pv_missing.specs.Owners.{IsOwner};
ghost use Rattle.pv_complete.specs.KnownWeights.{AreKnown};
ghost use Rattle.pv_complete.specs.Loads.{AddsUp, StopsAtList};
ghost use Rattle.pv_complete.specs.PlainForms.{load_of};
ghost use Rattle.pv_span.specs.declared.errors.SpanError.TheVariants.{TooWide as too_wide};

use crate::missing::known::KnownWeights;
use crate::missing::lists::weight_of;
use crate::missing::load::Load;
use pv_missing::{Of, Verdicts};
use pv_span::{ColumnLayout, ListOwner, SpanError, is_known_owner};
use pv_tree::Node;
use std::alloc::Global;

/// Adds the weight of the list of these kids where it is Possible.
pub fn weigh_list(
    alloc: Global,
    layout: &ColumnLayout<'_>,
    owner: Option<Of>,
    kids: &[Node],
    verdicts: &Verdicts,
    known: &mut KnownWeights,
    load: &mut Load,
) -> Result<(), SpanError>
    requires { AreKnown (dtd_of layout.now.grammar.now) known.old }
    ensures weighed { OnOk result ((root : List ℕ) (list : Listed Mark) →
        list.kids ≡ forest kids.now →
        IsOwner (dtd_of layout.now.grammar.now) root list owner →
        AddsUp (dtd_of layout.now.grammar.now) root (list ∷ []) verdicts.now.verdicts
        (load_of load.old) (load_of load.new)) }
    ensures wide { IfErr result (λ e. e ≡ too_wide → (root : List ℕ) (list : Listed Mark) →
        list.kids ≡ forest kids.now → IsOwner (dtd_of layout.now.grammar.now) root list owner →
        StopsAtList (dtd_of layout.now.grammar.now) root (list ∷ []) verdicts.now.verdicts
        (load_of load.old) list.path) }
    ensures known { AreKnown (dtd_of layout.now.grammar.now) known.new }
{
    if !load.takes_possible(verdicts) {
        return Ok(());
    }
    let Some(of) = owner else {
        return Ok(());
    };
    if !is_known_owner(layout.grammar, of) {
        return Ok(());
    }
    match weight_of(alloc, &ListOwner { layout, of }, kids, known) {
        Ok(weight) => {
            load.add(weight);
            Ok(())
        }
        Err(error) => Err(error),
    }
}
