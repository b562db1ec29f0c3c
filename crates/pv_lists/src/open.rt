//! The lists of the open elements, as far as they were read.

ghost use Rattle.std.specs.Prelude.{◌≡◌, ◌<◌, ◌+◌, ◌∷◌, ◌++◌, [], ℕ, List, IfOk, IfSome, OnOk};
ghost use Rattle.std.specs.Prelude.{length};
ghost use Rattle.std.specs.Option.{option_to_list};
ghost use Rattle.pv_tree.specs.declared.nodes.Mark.{Mark};
ghost use Rattle.pv_read.specs.Left.{Open, just_opened};
ghost use Rattle.pv_lists.specs.Judgements.{MAX_KIDS, path_in};
ghost use Rattle.pv_lists.specs.OpenLists.{HasReadTo, MayGrow};
ghost use Rattle.pv_lists.specs.Types.{AreTypes, IsTypeOf};
ghost use Rattle.pv_lists.specs.WholeLists.{whole_lists};

use crate::judging::ListJudge;
use crate::types::{ElementType, FoundTypes};
use pv_chars::NoMemory;
use pv_model::Token;
use std::alloc::Global;
use std::mem::replace;

/// The list of an open element.
#[derive(Clone, Copy)]
pub struct OpenList<'a, B> {
    pub name: &'a [u8],
    /// Whether the name is known to be a Name.
    pub is_name: bool,
    /// What the element is in the word of the list that it stands in.
    pub token: Token,
    /// The number of the kids so far.
    pub kids: u32,
    /// The number of the tokens before those of its word.
    pub start: usize,
    /// What was noted of the lists that were whole before the element began.
    pub before: B,
}

impl<'a, B> OpenList<'a, B> {
    // That of an element of this type that begins.
    fn of(kind: ElementType<'a>, start: usize, before: B) -> OpenList<'a, B>
        ensures name { result.name ≡ kind.entry.name }
        ensures is_name { result.is_name ≡ kind.entry.is_name }
        ensures token { result.token ≡ kind.entry.token }
        ensures kids { result.kids ≡ 0 }
        ensures start { result.start ≡ start }
        ensures before { result.before ≡ before }
    {
        OpenList {
            name: kind.name,
            is_name: kind.is_name,
            token: kind.token,
            kids: 0,
            start,
            before,
        }
    }
}

/// The places of the innermost open element, where these are around it, outermost first: the
/// numbers of the kids that are open in the document node and in these elements.
pub fn places_in<B>(alloc: Global, outer: &[OpenList<'_, B>]) -> Result<Vec<u32>, NoMemory>
    ensures { IfOk result (λ places. places.items ≡ path_in outer.now) }
{
    let mut places = Vec::new(alloc);
    places.push(0)?;
    for list in outer {
        places.push(list.kids)?;
    }
    Ok(places)
}

/// The list of the innermost open element, those around it, outermost first, the tokens of their
/// words, one after another, what was found of the lists that are whole, and the element types
/// that were found.
#[derive(Drop)]
pub struct OpenLists<'a, B, F> {
    pub inner: OpenList<'a, B>,
    pub outer: Vec<OpenList<'a, B>>,
    pub tokens: Vec<Token>,
    pub found: F,
    pub types: FoundTypes<'a>,
}

impl<'a, B, F> OpenLists<'a, B, F> {
    /// One more kid of the innermost open element, with the token that it has.
    pub(crate) fn add_kid(&mut self, token: Option<Token>) -> Result<(), NoMemory>
        requires { self.old.inner.kids < MAX_KIDS }
        ensures inner { OnOk result (self.new.inner
            ≡ record self.old.inner { kids = self.old.inner.kids + 1 }) }
        ensures outer { self.new.outer ≡ self.old.outer }
        ensures tokens { OnOk result (self.new.tokens.items ≡ self.old.tokens.items
            ++ option_to_list token) }
        ensures found { self.new.found ≡ self.old.found }
        ensures types { self.new.types ≡ self.old.types }
    {
        self.inner.kids += 1;
        match token {
            Some(token) => {
                self.tokens.push(token)?;
                Ok(())
            }
            None => Ok(()),
        }
    }
}

/// The lists of the root of this name, which begins.
pub fn begin<'a, J: ListJudge>(
    alloc: Global,
    judge: &J,
    name: &'a [u8],
) -> Result<OpenLists<'a, J::Before, J::Found>, NoMemory>
    ensures read { (root attrs : List ℕ) → IfOk result (λ lists.
        HasReadTo (J.judgement judge.now) root lists (just_opened name.now attrs) []) }
    ensures room { IfOk result (λ lists. MayGrow lists) }
    ensures types { IfOk result (λ lists. AreTypes (J.judgement judge.now).dtd lists.types) }
{
    let mut types = FoundTypes::of(alloc, judge.dtd(), name)?;
    let kind = types.find(judge.dtd(), name);
    let found = judge.none();
    let before = judge.before(&found);
    Ok(OpenLists {
        inner: OpenList::of(kind, 0, before),
        outer: Vec::new(alloc),
        tokens: Vec::new(alloc),
        found,
        types,
    })
}

/// One more open element, the innermost, of a type that may be at hand.
pub fn open<'a, J: ListJudge>(
    judge: &J,
    lists: &mut OpenLists<'a, J::Before, J::Found>,
    name: &'a [u8],
    kind: Option<ElementType<'a>>,
) -> Result<(), NoMemory>
    requires types { AreTypes (J.judgement judge.now).dtd lists.old.types }
    requires typed { IfSome kind (IsTypeOf (J.judgement judge.now).dtd name.now) }
    ensures read { (root attrs : List ℕ) (inner : Open Mark) (outer : List (Open Mark)) →
        HasReadTo (J.judgement judge.now) root lists.old inner outer →
        OnOk result (HasReadTo (J.judgement judge.now) root lists.new (just_opened name.now attrs)
        (inner ∷ outer)) }
    ensures room { MayGrow lists.old → OnOk result (MayGrow lists.new) }
    ensures types { OnOk result (AreTypes (J.judgement judge.now).dtd lists.new.types) }
{
    let kind = lists.types.or_find(judge.dtd(), name, kind);
    let before = judge.before(&lists.found);
    let begun = OpenList::of(kind, lists.tokens.len(), before);
    let around = replace(&mut lists.inner, begun);
    lists.outer.push(around)?;
    Ok(())
}
