//! The first list that is too wide for a verdict.

ghost use Rattle.std.specs.Prelude.{◌≡◌, ◌≤◌, ◌<◌, ◌^◌, ◌↔◌, List, ℕ, IfOk, IsTrue, MatchOption};
ghost use Rattle.std.specs.Prelude.{length};
ghost use Rattle.std.specs.List.{AllByRecursion};
ghost use Rattle.pv_dtd.specs.Plain.{PlainDtd};
ghost use Rattle.pv_dtd.specs.PlainForms.{plain_dtd};
ghost use Rattle.pv_tree.specs.Legal.{MAX_NODES};
ghost use Rattle.pv_tree.specs.Lists.{lists_of};
ghost use Rattle.pv_tree.specs.PlainDocs.{plain_doc};
ghost use Rattle.pv_tree.specs.PlainForms.{forest};
ghost use Rattle.pv_tree.specs.Words.{word_of};
ghost use Rattle.pv_missing.specs.Widths.{FitsVerdict, IsFirstTooWide, IsListForVerdict};

use pv_chars::NoMemory;
use pv_dtd::Dtd;
use pv_missing::is_narrow;
use pv_tree::{Doc, DocList, ListTest, Node, Path, first_list};
use std::alloc::Global;

/// The path of the first list that is too wide for a verdict.
pub fn first_too_wide(alloc: Global, dtd: &Dtd, doc: &Doc) -> Result<Option<Path>, NoMemory>
    ensures { IfOk result (λ found. MatchOption found
        (AllByRecursion (IsListForVerdict (plain_dtd dtd.now)) (lists_of (plain_doc doc.now)))
        (IsFirstTooWide (plain_dtd dtd.now) (lists_of (plain_doc doc.now)))) }
{
    first_list(alloc, &Widths { dtd }, doc, &mut ())
}

// Whether lists aren't too wide for a verdict.
#[derive(Drop)]
struct Widths<'a> {
    dtd: &'a Dtd,
}

impl ListTest for Widths<'_> {
    type State = ();

    ghost passes = { λ test _. IsListForVerdict (plain_dtd test.dtd.now) };

    ghost awaits = { λ _ _ _ _. Unit {0} };

    fn passes_list(&self, list: &DocList<'_>, _: &mut ()) -> Result<bool, NoMemory> {
        Ok(is_list_narrow(self.dtd, list.kids))
    }
}

// Whether the list of these kids isn't too wide. Its tokens are counted only where there are as
// many kids as are too many tokens.
fn is_list_narrow(dtd: &Dtd, kids: &[Node]) -> bool
    requires { length kids.now ≤ MAX_NODES }
    ensures { IsTrue result ↔ FitsVerdict (plain_dtd dtd.now)
        (length (word_of (plain_dtd dtd.now) (forest kids.now))) }
{
    if is_narrow(dtd, kids.len() as u64) {
        return true;
    }
    is_narrow(dtd, tokens_in(kids))
}

// The number of tokens of the word of these kids.
fn tokens_in(kids: &[Node]) -> u64
    requires { length kids.now ≤ MAX_NODES }
    ensures count { (g : PlainDtd) → result ≡ length (word_of g (forest kids.now)) }
    ensures most { result ≤ length kids.now }
{
    let mut count = 0;
    for kid in kids {
        if kid.has_token() {
            count += 1;
        }
    }
    count
}
