//! Denies documents.

ghost use Rattle.std.specs.Prelude.{◌≡◌, IfErr, IfOk, MatchOption, length};
ghost use Rattle.std.specs.List.{AllByRecursion};
ghost use Rattle.pv_productive.specs.PlainForms.{dtd_of};
ghost use Rattle.pv_tree.specs.Lists.{lists_of};
ghost use Rattle.pv_tree.specs.PlainDocs.{plain_doc};
ghost use Rattle.pv_tree.specs.PlainForms.{forest};
ghost use Rattle.pv_tree.specs.Words.{word_of};
ghost use Rattle.pv_missing.specs.Verdicts.{IsFirstImpossible};
ghost use Rattle.pv_missing.specs.Widths.{FitsVerdict, IsListForVerdict};
ghost use Rattle.pv_denial.specs.declared.denials.Cause.TheVariants.{Word as by_word};
ghost use Rattle.pv_deny.specs.DocumentDenials.{HasOutcomeBy, IsDenialOf};
ghost use Rattle.pv_deny.specs.ToldRows.{HasManyValues, HasRowsBy};

use crate::errors::DenyError;
use crate::words::word_rows;
use pv_chars::{List, NoMemory};
use pv_denial::{Cause, Denial, Rows, cause_of, place_at};
use pv_productive::Grammar;
use pv_reach::Judge;
use pv_tables::laws::one_list_at_path_law;
use pv_tree::{Doc, Mark, Node, Path};
use std::alloc::Global;

/// The rows of a denial of this cause, by a judge of this grammar; none where they would have too
/// many values.
fn rows_by(
    alloc: Global,
    grammar: &Grammar,
    judge: &Judge<'_>,
    kids: &[Node],
    cause: Cause,
) -> Result<Option<Rows>, NoMemory>
    requires same { judge.now ≡ grammar.now }
    requires narrow { FitsVerdict (dtd_of grammar.now)
        (length (word_of (dtd_of grammar.now) (forest kids.now))) }
    ensures { IfOk result (λ found. MatchOption found ((cause ≡ by_word) ×
        HasManyValues (dtd_of grammar.now) (word_of (dtd_of grammar.now) (forest kids.now)))
        (HasRowsBy (dtd_of grammar.now) (word_of (dtd_of grammar.now) (forest kids.now)) cause)) }
{
    if cause == Cause::Word {
        word_rows(alloc, grammar, judge, kids)
    } else {
        Ok(Some(List::of(Vec::new(alloc))))
    }
}

/// What denies a document whose first impossible list is at this path, by a judge of this grammar.
pub(crate) fn denial_over(
    alloc: Global,
    grammar: &Grammar,
    judge: &Judge<'_>,
    root: &[u8],
    doc: &Doc,
    path: Path,
) -> Result<Denial, DenyError>
    requires same { judge.now ≡ grammar.now }
    requires narrow { AllByRecursion (IsListForVerdict (dtd_of grammar.now))
        (lists_of (plain_doc doc.now)) }
    requires first { IsFirstImpossible (dtd_of grammar.now) root.now (lists_of (plain_doc doc.now))
        path }
    ensures denied { IfOk result (IsDenialOf (dtd_of grammar.now) root.now (plain_doc doc.now)) }
    ensures refused { IfErr result
        (HasOutcomeBy (dtd_of grammar.now) root.now (plain_doc doc.now)) }
{
    one_list_at_path_law::<Mark>();
    let Some(place) = place_at(root, doc, &path) else {
        unreachable!()
    };
    let cause = cause_of(grammar, &place);
    let Some(rows) = rows_by(alloc, grammar, judge, place.kids, cause)? else {
        return Err(DenyError::TooMany);
    };
    Ok(Denial { path, cause, rows })
}

/// What denies a document whose first impossible list is at this path, where no list is too wide,
/// by the plan of a grammar, where its rules are laid out.
///
/// There is no answer but a denial, too many values, and want of memory. The rows take four bytes
/// for each value; the table that they are found by takes as much for each column and place.
pub fn denial_by(judge: &Judge<'_>, root: &[u8], doc: &Doc, path: Path) -> Result<Denial, DenyError>
    requires narrow { AllByRecursion (IsListForVerdict (dtd_of judge.now))
        (lists_of (plain_doc doc.now)) }
    requires first { IsFirstImpossible (dtd_of judge.now) root.now (lists_of (plain_doc doc.now))
        path }
    ensures denied { IfOk result (IsDenialOf (dtd_of judge.now) root.now (plain_doc doc.now)) }
    ensures refused { IfErr result
        (HasOutcomeBy (dtd_of judge.now) root.now (plain_doc doc.now)) }
{
    let grammar = judge.grammar();
    denial_over(judge.alloc(), grammar, judge, root, doc, path)
}
