//! Items in the root, and elements that end.

ghost use Rattle.std.specs.Prelude.{◌≡◌, ◌∷◌, ◌++◌, ℕ, List, not, true, IfOk, IfSome, OnOk};
ghost use Rattle.std.specs.List.{list_any};
ghost use Rattle.pv_chars.specs.Spaces.{is_space};
ghost use Rattle.pv_tree.specs.Lists.{lists_at};
ghost use Rattle.pv_tree.specs.Plain.{Ending};
ghost use Rattle.pv_tree.specs.declared.nodes.Mark.{Mark};
ghost use Rattle.pv_read.specs.Items.{HasKnownReferences};
ghost use Rattle.pv_read.specs.Left.{Open};
ghost use Rattle.pv_read.specs.PlainItems.{plain_item};
ghost use Rattle.pv_read.specs.Places.{may_stand_in_content};
ghost use Rattle.pv_lists.specs.Contents.{IsBehind};
ghost use Rattle.pv_lists.specs.OpenLists.{HasEnded, HasReadTo, HasRoom, MayGrow, ended_element};
ghost use Rattle.pv_lists.specs.Tags.{IsTypeOfTag};
ghost use Rattle.pv_lists.specs.Types.{AreTypes};
ghost use Rattle.pv_lists.specs.WholeLists.{next_path, whole_lists};

use crate::judging::ListJudge;
use crate::open::{OpenLists, open};
use crate::types::ElementType;
use pv_chars::scan::is_space;
use pv_model::Token;
use pv_read::forms::Item;

// Has the list of the innermost open element judged, which ends.
fn judge_inner<J: ListJudge>(
    judge: &J,
    lists: &mut OpenLists<'_, J::Before, J::Found>,
) -> Result<(), J::Error>
    requires grow { MayGrow lists.old }
    requires room { HasRoom (J.judgement judge.now) lists.old }
    ensures finds { (root attrs : List ℕ) (inner : Open Mark) (outer : List (Open Mark))
        (ending : Ending) (mark : Mark) →
        HasReadTo (J.judgement judge.now) root lists.old inner outer →
        OnOk result ((J.judgement judge.now).finds root (whole_lists outer
        ++ lists_at (next_path outer) (ended_element inner attrs ending mark)) lists.new.found) }
    ensures inner { lists.new.inner ≡ lists.old.inner }
    ensures outer { lists.new.outer ≡ lists.old.outer }
    ensures tokens { lists.new.tokens ≡ lists.old.tokens }
    ensures types { lists.new.types ≡ lists.old.types }
{
    let word = &lists.tokens[lists.inner.start..];
    judge.judge(&lists.inner, word, &lists.outer, &mut lists.found)
}

/// The innermost open element ends: it is a kid of the one around it, or the root, and then this
/// says true.
pub fn close<J: ListJudge>(
    judge: &J,
    lists: &mut OpenLists<'_, J::Before, J::Found>,
) -> Result<bool, J::Error>
    requires grow { MayGrow lists.old }
    requires room { HasRoom (J.judgement judge.now) lists.old }
    ensures ended { (root attrs : List ℕ) (inner : Open Mark) (outer : List (Open Mark))
        (ending : Ending) (mark : Mark) →
        HasReadTo (J.judgement judge.now) root lists.old inner outer →
        IfOk result (λ whole. HasEnded (J.judgement judge.now) root lists.new whole outer
        (ended_element inner attrs ending mark)) }
    ensures types { OnOk result (lists.new.types ≡ lists.old.types) }
{
    judge_inner(judge, lists)?;
    let token = lists.inner.token;
    lists.tokens.truncate(lists.inner.start);
    let Some(around) = lists.outer.pop() else {
        return Ok(true);
    };
    lists.inner = around;
    lists.add_kid(Some(token))?;
    Ok(false)
}

/// One more item in the root, and whether it makes the root whole. The type of a tag that opens an
/// element may be at hand.
pub fn add<'a, J: ListJudge>(
    judge: &J,
    lists: &mut OpenLists<'a, J::Before, J::Found>,
    item: &Item<'a>,
    kind: Option<ElementType<'a>>,
) -> Result<bool, J::Error>
    requires grow { MayGrow lists.old }
    requires room { HasRoom (J.judgement judge.now) lists.old }
    requires stands { may_stand_in_content (plain_item item.now) ≡ true }
    requires known { HasKnownReferences (plain_item item.now) }
    requires types { AreTypes (J.judgement judge.now).dtd lists.old.types }
    requires typed { IfSome kind (IsTypeOfTag (J.judgement judge.now).dtd (plain_item item.now)) }
    ensures behind { (root : List ℕ) (inner : Open Mark) (outer : List (Open Mark)) →
        HasReadTo (J.judgement judge.now) root lists.old inner outer →
        IfOk result (λ whole. IsBehind (J.judgement judge.now) root lists.new whole inner outer
        (plain_item item.now)) }
    ensures types { OnOk result (AreTypes (J.judgement judge.now).dtd lists.new.types) }
{
    match item {
        Item::StartTag(tag) => {
            open(judge, lists, tag.name, kind)?;
            Ok(false)
        }
        Item::EmptyTag(tag) => {
            open(judge, lists, tag.name, kind)?;
            let whole = close(judge, lists)?;
            Ok(whole)
        }
        Item::EndTag { .. } => {
            let whole = close(judge, lists)?;
            Ok(whole)
        }
        Item::TextRun(run) => {
            lists.add_kid(holds_data(run).then_some(Token::Text))?;
            Ok(false)
        }
        Item::CdataSection(_) => {
            lists.add_kid(Some(Token::Text))?;
            Ok(false)
        }
        Item::CommentOrInstruction(_) => {
            lists.add_kid(None)?;
            Ok(false)
        }
        Item::XmlDeclaration(_) | Item::Doctype { .. } => unreachable!(),
    }
}

// Whether anything but white space stands in the bytes.
fn holds_data(bytes: &[u8]) -> bool
    ensures { result ≡ list_any (λ b. not (is_space b)) bytes.now }
{
    bytes.iter().any(|b| !is_space(*b))
}
