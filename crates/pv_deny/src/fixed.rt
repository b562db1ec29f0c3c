//! A call of this library that the program doesn't make. It stands for other callers.

ghost use Rattle.std.specs.Prelude.{IfErr, IfOk};
ghost use Rattle.std.specs.List.{AllByRecursion};
ghost use Rattle.pv_productive.specs.PlainForms.{dtd_of};
ghost use Rattle.pv_tree.specs.Lists.{lists_of};
ghost use Rattle.pv_tree.specs.PlainDocs.{plain_doc};
ghost use Rattle.pv_missing.specs.Verdicts.{IsFirstImpossible};
ghost use Rattle.pv_missing.specs.Widths.{IsListForVerdict};
ghost use Rattle.pv_denial.specs.Judgements.{IsDenialJudged};
ghost use Rattle.pv_denial.specs.declared.denials.Judged.TheVariants as judged;
ghost use Rattle.pv_deny.specs.DocumentDenials.{Answers, HasOutcome, IsDenialOf, HasOutcomeBy};
ghost use Rattle.pv_deny.specs.DocumentDenials.{Outcome};

use crate::denying::denial_over;
use crate::errors::DenyError;
use crate::laws::{denial_judged_law, one_outcome_law};
use pv_denial::Denial;
use pv_dtd::laws::proper_dtd_law;
use pv_fresh::{PossibleError, possible_verdicts};
use pv_missing::laws::proper::proper_doc_law;
use pv_productive::Grammar;
use pv_reach::Judge;
use pv_tree::{Doc, Mark, Path};
use std::alloc::Global;

// What denies a document whose first impossible list is at this path, where no list is too wide.
fn denial_at(
    alloc: Global,
    grammar: &Grammar,
    root: &[u8],
    doc: &Doc,
    path: Path,
) -> Result<Denial, DenyError>
    requires narrow { AllByRecursion (IsListForVerdict (dtd_of grammar.now))
        (lists_of (plain_doc doc.now)) }
    requires first { IsFirstImpossible (dtd_of grammar.now) root.now (lists_of (plain_doc doc.now))
        path }
    ensures denied { IfOk result (IsDenialOf (dtd_of grammar.now) root.now (plain_doc doc.now)) }
    ensures refused { IfErr result
        (HasOutcomeBy (dtd_of grammar.now) root.now (plain_doc doc.now)) }
{
    let judge = Judge::without_plan(alloc, grammar);
    denial_over(alloc, grammar, &judge, root, doc, path)
}

// What denies a document of which nothing is known.
fn deny_any(alloc: Global, grammar: &Grammar, root: &[u8], doc: &Doc) -> Result<Denial, DenyError>
    ensures denied { IfOk result (IsDenialOf (dtd_of grammar.now) root.now (plain_doc doc.now)) }
    ensures refused { IfErr result
        (HasOutcomeBy (dtd_of grammar.now) root.now (plain_doc doc.now)) }
{
    match possible_verdicts(alloc, grammar, root, doc) {
        Ok(_) => Err(DenyError::Possible),
        Err(PossibleError::TooWide(path)) => Err(DenyError::TooWide(path)),
        Err(PossibleError::Impossible(path)) => denial_at(alloc, grammar, root, doc, path),
        Err(PossibleError::NoMemory) => Err(DenyError::NoMemory),
    }
}

/// What denies a document: its first impossible list, the cause, and where that is the list's word,
/// the furthest places of all sites that derive something.
///
/// `TooWide` is asked first, and then whether the document is potentially valid. The judge of
/// pv_denial accepts what is answered.
pub fn deny(alloc: Global, grammar: &Grammar, root: &[u8], doc: &Doc) -> Result<Denial, DenyError>
    ensures denied { IfOk result (IsDenialOf (dtd_of grammar.now) root.now (plain_doc doc.now)) }
    ensures refused { IfErr result
        (HasOutcomeBy (dtd_of grammar.now) root.now (plain_doc doc.now)) }
    ensures exactly { (o : Outcome) → HasOutcome (dtd_of grammar.now) root.now (plain_doc doc.now) o
        → Answers o result }
    ensures accepted { IfOk result (λ denial.
        IsDenialJudged (dtd_of grammar.now) root.now (plain_doc doc.now) denial judged.Denied) }
{
    proper_dtd_law(grammar.dtd());
    proper_doc_law(doc);
    one_outcome_law::<Mark>();
    denial_judged_law::<Mark>();
    deny_any(alloc, grammar, root, doc)
}
