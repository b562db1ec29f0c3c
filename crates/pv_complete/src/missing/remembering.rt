//! The least number of missing elements, and a least completion, by what is remembered of the
//! grammar.

ghost use Rattle.std.specs.Prelude.{IfErr, IfOk};
ghost use Rattle.pv_productive.specs.PlainForms.{dtd_of};
ghost use Rattle.pv_tree.specs.PlainDocs.{plain_doc};
ghost use Rattle.pv_tree.specs.Prolog.{IsProlog};
ghost use Rattle.pv_complete.specs.GrownTrees.{IsBounded, IsGrownText};
ghost use Rattle.pv_complete.specs.LeastCompletions.{IsLeastCompletion};
ghost use Rattle.pv_complete.specs.NeededElements.{AreLiveVerdicts, HasCause, Needs};
ghost use Rattle.pv_complete.specs.RememberedGrammar.{Remembers};

use crate::errors::NeedError;
use crate::missing::known::KnownWeights;
use crate::missing::needing::need_under;
use crate::writing::completion::{Completion, complete_under};
use pv_chars::NoMemory;
use pv_missing::Verdicts;
use pv_productive::Grammar;
use pv_span::{ColumnLayout, Columns, lay_out};
use pv_tree::Doc;
use std::alloc::Global;

/// What is remembered of a grammar from one `need_remembering` or `complete_remembering` to the
/// next: its columns, and the weights of words that were weighed, by owner, with the pieces of
/// those that were completed. It speaks of no document.
#[derive(Drop)]
pub struct Remembered {
    columns: Option<Columns>,
    weights: KnownWeights,
}

impl Remembered {
    ghost use Rattle.std.specs.Prelude.{◌≡◌, IfOk};
    ghost use Rattle.pv_dtd.specs.Plain.{PlainDtd};
    ghost use Rattle.pv_productive.specs.PlainForms.{dtd_of};
    ghost use Rattle.pv_complete.specs.RememberedGrammar.{Remembers};

    /// Nothing so far.
    pub fn nothing(alloc: Global) -> Remembered
        ensures { (g : PlainDtd) → Remembers g result }
    {
        Remembered {
            columns: None,
            weights: KnownWeights::none(alloc),
        }
    }

    /// The grammar with its columns, which are laid out unless they are remembered. They are to be
    /// given back.
    fn take_layout<'a>(
        &mut self,
        alloc: Global,
        grammar: &'a Grammar,
    ) -> Result<ColumnLayout<'a>, NoMemory>
        requires { Remembers (dtd_of grammar.now) self.old }
        ensures layout { IfOk result (λ layout. layout.grammar.now ≡ grammar.now) }
        ensures remembers { Remembers (dtd_of grammar.now) self.new }
    {
        match self.columns.take() {
            Some(columns) => Ok(ColumnLayout::of(grammar, columns)),
            None => lay_out(alloc, grammar),
        }
    }
}

/// The least number of elements whose insertion makes a document valid, by the verdicts of its
/// lists, none of which is Impossible or too wide for one, and by what is remembered of the grammar,
/// which is then remembered too. Of lists whose owner and word were weighed before none is weighed
/// again; want of memory for remembering only means that it isn't remembered.
pub fn need_remembering(
    alloc: Global,
    grammar: &Grammar,
    root: &[u8],
    doc: &Doc,
    verdicts: &Verdicts,
    remembered: &mut Remembered,
) -> Result<u64, NeedError>
    requires { Remembers (dtd_of grammar.now) remembered.old }
    ensures needs { IfOk result (λ n. AreLiveVerdicts (dtd_of grammar.now) root.now
        (plain_doc doc.now) verdicts.now.verdicts →
        Needs (dtd_of grammar.now) root.now (plain_doc doc.now) n) }
    ensures refused { IfErr result (λ error. AreLiveVerdicts (dtd_of grammar.now) root.now
        (plain_doc doc.now) verdicts.now.verdicts →
        HasCause (dtd_of grammar.now) root.now (plain_doc doc.now) error) }
    ensures remembers { Remembers (dtd_of grammar.now) remembered.new }
{
    let layout = remembered.take_layout(alloc, grammar)?;
    let told = need_under(alloc, &layout, root, doc, verdicts, &mut remembered.weights);
    remembered.columns = Some(layout.into_columns());
    told
}

/// A least completion of a document, as `complete_by` makes it, by what is remembered of the
/// grammar, which is then remembered too. A list whose owner and word were completed before isn't
/// completed again; want of memory for remembering only means that it isn't remembered.
pub fn complete_remembering(
    alloc: Global,
    grammar: &Grammar,
    root: &[u8],
    doc: &Doc,
    verdicts: &Verdicts,
    remembered: &mut Remembered,
) -> Result<Completion, NeedError>
    requires remembers { Remembers (dtd_of grammar.now) remembered.old }
    requires names { IsProlog root.now (plain_doc doc.now).before }
    requires verdicts { ∥ AreLiveVerdicts (dtd_of grammar.now) root.now (plain_doc doc.now)
        verdicts.now.verdicts ∥₁ }
    ensures completed { IfOk result (λ c. AreLiveVerdicts (dtd_of grammar.now) root.now
        (plain_doc doc.now) verdicts.now.verdicts →
        IsLeastCompletion (dtd_of grammar.now) root.now (plain_doc doc.now) c.count c.marks
        c.body) }
    ensures written { IfOk result (λ c. AreLiveVerdicts (dtd_of grammar.now) root.now
        (plain_doc doc.now) verdicts.now.verdicts → IsGrownText (plain_doc doc.now) c.body) }
    ensures bounded { IfOk result (λ c. AreLiveVerdicts (dtd_of grammar.now) root.now
        (plain_doc doc.now) verdicts.now.verdicts → IsBounded (plain_doc doc.now) c.count c.body) }
    ensures refused { IfErr result (λ error. AreLiveVerdicts (dtd_of grammar.now) root.now
        (plain_doc doc.now) verdicts.now.verdicts →
        HasCause (dtd_of grammar.now) root.now (plain_doc doc.now) error) }
    ensures remembers { Remembers (dtd_of grammar.now) remembered.new }
{
    let layout = remembered.take_layout(alloc, grammar)?;
    remembered.weights.keep_pieces(true);
    let weights = &mut remembered.weights;
    let told = complete_under(alloc, &layout, root, doc, verdicts, weights);
    remembered.weights.keep_pieces(false);
    remembered.columns = Some(layout.into_columns());
    told
}
