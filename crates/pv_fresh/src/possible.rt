//! The verdicts of a document that inserting elements can make valid.

ghost use Rattle.std.specs.Prelude.{IfErr, IfOk};
ghost use Rattle.pv_productive.specs.PlainForms.{dtd_of};
ghost use Rattle.pv_tree.specs.PlainDocs.{plain_doc};
ghost use Rattle.pv_fresh.specs.Answers.{DeniesVerdicts, HasPossibility};

use crate::check::find_verdicts;
use crate::errors::{FreshError, PossibleError};
use pv_missing::Verdicts;
use pv_productive::Grammar;
use pv_tree::{Doc, Path};
use std::alloc::Global;

/// The verdicts of all lists of a document, as `check_doc` finds them, none of which is Impossible.
/// They are found on no counter.
pub fn possible_verdicts(
    alloc: Global,
    grammar: &Grammar,
    root: &[u8],
    doc: &Doc,
) -> Result<Verdicts, PossibleError>
    ensures possible { IfOk result (HasPossibility root.now (dtd_of grammar.now)
        (plain_doc doc.now)) }
    ensures refused { IfErr result (DeniesVerdicts root.now (dtd_of grammar.now)
        (plain_doc doc.now)) }
{
    let verdicts = match find_verdicts(alloc, grammar, root, doc) {
        Ok(verdicts) => verdicts,
        Err(FreshError::TooWide(path)) => return Err(PossibleError::TooWide(path)),
        Err(FreshError::NoMemory) => return Err(PossibleError::NoMemory),
    };
    if let Some(path) = verdicts.first_impossible() {
        return Err(PossibleError::Impossible(Path::new(alloc, path.places())?));
    }
    Ok(verdicts)
}
