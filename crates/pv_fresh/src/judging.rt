//! The verdicts of lists, in document order.

ghost use Rattle.std.specs.Prelude.{◌≡◌, List, ℕ, IfOk, length};
ghost use Rattle.std.specs.List.{AllByRecursion};
ghost use Rattle.pv_productive.specs.PlainForms.{dtd_of};
ghost use Rattle.pv_tree.specs.Lists.{Listed, lists_of};
ghost use Rattle.pv_tree.specs.PlainDocs.{plain_doc};
ghost use Rattle.pv_tree.specs.PlainForms.{forest};
ghost use Rattle.pv_tree.specs.Walks.{list_given, owner_named};
ghost use Rattle.pv_tree.specs.Words.{word_of};
ghost use Rattle.pv_tree.specs.declared.nodes.Mark.{Mark};
ghost use Rattle.pv_missing.specs.Owners.{IsOwner};
ghost use Rattle.pv_missing.specs.Verdicts.{AreVerdicts, IsVerdict};
ghost use Rattle.pv_missing.specs.Widths.{FitsVerdict, IsListForVerdict};
ghost use Rattle.pv_missing.specs.WordVerdicts.{HoldsOne};

use pv_chars::NoMemory;
use pv_missing::{Of, element_owner, root_owner};
use pv_productive::Grammar;
use pv_reach::{Judge, ReachError, judge_kids};
use pv_tree::{Doc, DocList, Lists, OwnerName, Verdict};

/// Whose list it is, as a grammar knows it.
pub fn owner_under(grammar: &Grammar, root: &[u8], owner: OwnerName<'_>) -> Option<Of>
    ensures { (list : Listed Mark) → list.owner ≡ owner_named owner.entry →
        IsOwner (dtd_of grammar.now) root.now list result }
{
    let dtd = grammar.dtd();
    match owner {
        OwnerName::Document => root_owner(dtd, root),
        OwnerName::Element(name) => element_owner(dtd, name),
    }
}

/// Whose list it is, as the grammar of a judge knows it.
pub fn owner_in(judge: &Judge<'_>, root: &[u8], owner: OwnerName<'_>) -> Option<Of>
    ensures { (list : Listed Mark) → list.owner ≡ owner_named owner.entry →
        IsOwner (dtd_of judge.now) root.now list result }
{
    owner_under(judge.grammar(), root, owner)
}

// The verdict of a list that isn't too wide.
fn judge_list(judge: &Judge<'_>, root: &[u8], list: &DocList<'_>) -> Result<Verdict, NoMemory>
    requires { FitsVerdict (dtd_of judge.now)
        (length (word_of (dtd_of judge.now) (forest list.now.kids.now))) }
    ensures { IfOk result (λ verdict. (path : List ℕ) →
        HoldsOne (owner_named list.now.owner) (forest list.now.kids.now) →
        IsVerdict (dtd_of judge.now) root.now (list_given path list.now) verdict) }
{
    let owner = owner_in(judge, root, list.owner);
    match judge_kids(judge, owner, list.kids) {
        Ok(verdict) => Ok(verdict),
        Err(ReachError::TooWide) => unreachable!(),
        Err(ReachError::NoMemory) => Err(NoMemory),
    }
}

/// The verdicts of all lists of a document, of which none is too wide.
pub fn judge_lists(judge: &Judge<'_>, root: &[u8], doc: &Doc) -> Result<Vec<Verdict>, NoMemory>
    requires { AllByRecursion (IsListForVerdict (dtd_of judge.now)) (lists_of (plain_doc doc.now)) }
    ensures { IfOk result (λ verdicts. AreVerdicts (dtd_of judge.now) root.now
        (lists_of (plain_doc doc.now)) verdicts.items) }
{
    let mut verdicts = Vec::new(judge.alloc());
    let mut lists = Lists::of(judge.alloc(), doc);
    while let Some(list) = lists.next()? {
        let verdict = judge_list(judge, root, &list)?;
        verdicts.push(verdict)?;
    }
    Ok(verdicts)
}
