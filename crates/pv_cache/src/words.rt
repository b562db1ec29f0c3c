//! The words of the lists that a change changes, beside the tree.

ghost use Rattle.std.specs.Prelude.{◌≡◌, ◌&&◌, ◌∷◌, ◌++◌, [], false, true, ℕ, List, IfOk};
ghost use Rattle.std.specs.Prelude.{IsTrue, MatchOption, OnOk, length, map, ◌≤◌};
ghost use Rattle.std.specs.List.{between, list_any, splice};
ghost use Rattle.pv_cache.specs.ChangedWords.{AreListTokens, AreWords, IsCame, IsComing};
ghost use Rattle.pv_cache.specs.ChangedWords.{IsInnerWord};
ghost use Rattle.pv_cache.specs.ChangedWords.{IsSpliced, IsWordOf};
ghost use Rattle.pv_cache.specs.ShownKids.{number_shown, shown_of};
ghost use Rattle.pv_dtd.specs.PlainForms.{plain_dtd};
ghost use Rattle.pv_edit.specs.BroughtElements.{BringsBare, brings_element};
ghost use Rattle.pv_edit.specs.Changes.{in_place_of, list_after, others};
ghost use Rattle.pv_edit.specs.FittingChanges.{CanFill, SuitsChange, plain_change, plain_filling};
ghost use Rattle.pv_edit.specs.Reasons.{is_one_element};
ghost use Rattle.pv_missing.specs.WordVerdicts.{has_no_trees};
ghost use Rattle.pv_model.specs.PlainForms.{plain_token};
ghost use Rattle.pv_tree.specs.Plain.{Ending, Tree, element, forest_of, is_element};
ghost use Rattle.pv_tree.specs.PlainForms.{forest, plain, plain_all};
ghost use Rattle.pv_tree.specs.Words.{word_of};
ghost use Rattle.pv_tree.specs.declared.nodes.Mark.{Mark};

use pv_chars::NoMemory;
use pv_dtd::Dtd;
use pv_edit::{Change, Filling};
use pv_model::Token;
use pv_tree::{Node, name_token, word};
use std::alloc::Global;

/// The word of a list, and whether it has no kids of any kind.
#[derive(Drop)]
pub struct ListWord {
    pub tokens: Vec<Token>,
    pub is_bare: bool,
}

/// The word of a list, and of each kid whether it has a token in it.
#[derive(Drop)]
pub struct ListTokens {
    pub word: ListWord,
    pub shown: Vec<bool>,
}

/// An element that a change brings into a list.
#[derive(Clone, Copy)]
pub(crate) struct Came<'a> {
    pub name: &'a [u8],
    pub kids: &'a [Node],
}

/// What comes in place of some kids, as far as a word tells.
#[derive(Clone, Copy)]
pub(crate) enum Coming<'a> {
    Nodes(&'a [Node]),
    Name(&'a [u8]),
}

// Appends the word of some nodes.
fn append(alloc: Global, dtd: &Dtd, nodes: &[Node], tokens: &mut Vec<Token>) -> Result<(), NoMemory>
    ensures { OnOk result (map plain_token tokens.new.items ≡ map plain_token tokens.old.items
        ++ word_of (plain_dtd dtd.now) (forest nodes.now)) }
{
    let more = word(alloc, dtd, nodes)?;
    tokens.extend_from_slice(more.as_slice())?;
    Ok(())
}

// Whether there are no nodes.
fn is_bare(nodes: &[Node]) -> bool
    ensures { result ≡ has_no_trees (forest nodes.now) }
{
    matches!(nodes, [])
}

// Whether all parts of a list have no nodes.
fn are_bare(front: bool, middle: bool, back: bool) -> bool
    ensures { result ≡ (front && (middle && back)) }
{
    front && middle && back
}

/// The word of some nodes.
pub(crate) fn word_of(alloc: Global, dtd: &Dtd, kids: &[Node]) -> Result<ListWord, NoMemory>
    ensures { IfOk result (IsWordOf (plain_dtd dtd.now) (forest kids.now)) }
{
    let mut tokens = Vec::new(alloc);
    append(alloc, dtd, kids, &mut tokens)?;
    Ok(ListWord {
        tokens,
        is_bare: is_bare(kids),
    })
}

// The kids of the only one of these nodes, which is an element.
fn kids_of_only(nodes: &[Node]) -> &[Node]
    requires { IsTrue (is_one_element (plain_all nodes.now)) }
    ensures { (name : List ℕ) × (attrs : List ℕ) × (ending : Ending) × (mark : Mark) ×
        (plain_all nodes.now ≡ element name attrs ending (forest result.now) mark ∷ []) }
{
    match nodes {
        [Node::Elem { kids, .. }] => kids.as_slice(),
        _ => unreachable!(),
    }
}

// What comes in place of the nodes that give way.
fn what_comes<'a>(filling: &'a Filling, old: &'a [Node]) -> Coming<'a>
    requires { CanFill (plain_filling filling.now) (plain_all old.now) }
    ensures { IsComing (in_place_of (plain_filling filling.now) (plain_all old.now)) result }
{
    match filling {
        Filling::Others(nodes) => Coming::Nodes(nodes.as_slice()),
        Filling::Around { name, .. } => Coming::Name(name.as_slice()),
        Filling::Named(name) => Coming::Name(name.as_slice()),
        Filling::Inner => Coming::Nodes(kids_of_only(old)),
    }
}

// Of each of some nodes whether it has a token.
fn shown_of(alloc: Global, kids: &[Node]) -> Result<Vec<bool>, NoMemory>
    ensures { IfOk result (λ shown. shown.items ≡ shown_of (forest kids.now)) }
{
    let mut shown = Vec::with_capacity(alloc, kids.len())?;
    for kid in kids {
        shown.push(kid.has_token())?;
    }
    Ok(shown)
}

/// The tokens of some nodes.
pub(crate) fn tokens_of(alloc: Global, dtd: &Dtd, kids: &[Node]) -> Result<ListTokens, NoMemory>
    ensures { IfOk result (AreListTokens (plain_dtd dtd.now) (forest kids.now)) }
{
    let word = word_of(alloc, dtd, kids)?;
    let shown = shown_of(alloc, kids)?;
    Ok(ListTokens { word, shown })
}

// The token of a node that has one alone.
fn one_token(alloc: Global, token: Token) -> Result<ListTokens, NoMemory>
    ensures { IfOk result (λ tokens. (tokens.word.tokens.items ≡ token ∷ []) ×
        (tokens.word.is_bare ≡ false) × (tokens.shown.items ≡ true ∷ [])) }
{
    let mut tokens = Vec::with_capacity(alloc, 1)?;
    tokens.push_reserved(token);
    let mut shown = Vec::with_capacity(alloc, 1)?;
    shown.push_reserved(true);
    let word = ListWord {
        tokens,
        is_bare: false,
    };
    Ok(ListTokens { word, shown })
}

// The tokens of what comes.
fn middle_tokens(alloc: Global, dtd: &Dtd, coming: Coming<'_>) -> Result<ListTokens, NoMemory>
    ensures { IfOk result (λ tokens. (new : List (Tree Mark)) → IsComing new coming.entry →
        AreListTokens (plain_dtd dtd.now) (forest_of new) tokens) }
{
    match coming {
        Coming::Nodes(nodes) => tokens_of(alloc, dtd, nodes),
        Coming::Name(name) => {
            let tokens = one_token(alloc, name_token(dtd, name))?;
            Ok(tokens)
        }
    }
}

/// How many of some kids have a token.
pub(crate) fn number_shown(shown: &[bool]) -> usize
    ensures { result ≡ number_shown shown.now }
{
    let mut number = 0;
    for one in shown {
        if *one {
            number += 1;
        }
    }
    number
}

// The items of a list in which others come in place of those from one place up to another.
fn spliced<T: Copy + Drop>(
    alloc: Global,
    items: &[T],
    from: usize,
    to: usize,
    new: &[T],
) -> Result<Vec<T>, NoMemory>
    requires order { from ≤ to }
    requires within { to ≤ length items.now }
    ensures { IfOk result (λ all. all.items ≡ splice items.now from to new.now) }
{
    let mut all = Vec::with_capacity(alloc, items.len().saturating_add(new.len()))?;
    all.extend_from_slice(&items[..from])?;
    all.extend_from_slice(new)?;
    all.extend_from_slice(&items[to..])?;
    Ok(all)
}

// The tokens of a list, some of whose kids give way to kids of these tokens. `is_bare` tells
// whether there are no kids afterwards.
fn spliced_tokens(
    alloc: Global,
    before: &ListTokens,
    from: usize,
    to: usize,
    middle: &ListTokens,
    is_bare: bool,
) -> Result<ListTokens, NoMemory>
    requires order { from ≤ to }
    requires within { to ≤ length before.now.shown.items }
    requires counted { number_shown before.now.shown.items
        ≡ length before.now.word.tokens.items }
    ensures { IfOk result (IsSpliced before.now from to middle.now is_bare) }
{
    let first = number_shown(&before.shown[..from]);
    let last = number_shown(&before.shown[..to]);
    let tokens = spliced(alloc, &before.word.tokens, first, last, &middle.word.tokens)?;
    let shown = spliced(alloc, &before.shown, from, to, &middle.shown)?;
    let word = ListWord { tokens, is_bare };
    Ok(ListTokens { word, shown })
}

/// The tokens of a list after a change, by those before.
pub(crate) fn tokens_after(
    alloc: Global,
    dtd: &Dtd,
    kids: &[Node],
    change: &Change,
    before: &ListTokens,
) -> Result<ListTokens, NoMemory>
    requires suits { SuitsChange (plain_change [] change.now) (plain_all kids.now) }
    requires before { AreListTokens (plain_dtd dtd.now) (forest kids.now) before.now }
    ensures { IfOk result (AreListTokens (plain_dtd dtd.now)
        (forest_of (list_after (plain_change [] change.now) (plain_all kids.now)))) }
{
    let front = &kids[..change.from];
    let old = &kids[change.from..change.to];
    let back = &kids[change.to..];
    let middle = middle_tokens(alloc, dtd, what_comes(&change.filling, old))?;
    let bare = are_bare(is_bare(front), middle.word.is_bare, is_bare(back));
    let after = spliced_tokens(alloc, before, change.from, change.to, &middle, bare)?;
    Ok(after)
}

/// The element that comes in place of the nodes that give way, if any.
pub(crate) fn who_came<'a>(filling: &'a Filling, old: &'a [Node]) -> Option<Came<'a>>
    requires fits { CanFill (plain_filling filling.now) (plain_all old.now) }
    requires bare { BringsBare (plain_filling filling.now) }
    ensures { MatchOption result (brings_element (plain_filling filling.now) ≡ false)
        (IsCame (plain_filling filling.now) (in_place_of (plain_filling filling.now)
        (plain_all old.now))) }
{
    match filling {
        Filling::Others(nodes) => only_element(nodes.as_slice()),
        Filling::Around { name, .. } => Some(Came {
            name: name.as_slice(),
            kids: old,
        }),
        Filling::Named(name) => Some(Came {
            name: name.as_slice(),
            kids: kids_of_only(old),
        }),
        Filling::Inner => None,
    }
}

// The element that comes alone.
fn only_element(nodes: &[Node]) -> Option<Came<'_>>
    requires { BringsBare (others (plain_all nodes.now)) }
    ensures { MatchOption result (list_any is_element (plain_all nodes.now) ≡ false)
        (λ came. (list_any is_element (plain_all nodes.now) ≡ true) ×
        (attrs : List ℕ) × (ending : Ending) × (mark : Mark) ×
        (plain_all nodes.now
        ≡ element came.name.now attrs ending (forest came.kids.now) mark ∷ [])) }
{
    match nodes {
        [Node::Elem { name, kids, .. }] => Some(Came {
            name: name.as_slice(),
            kids: kids.as_slice(),
        }),
        _ => None,
    }
}

/// The word of the list of an element that comes.
#[derive(Drop)]
pub(crate) struct InnerWord<'a> {
    pub name: &'a [u8],
    pub word: ListWord,
}

/// The tokens of the outer list that a change changes, and the word of the inner one.
#[derive(Drop)]
pub(crate) struct Words<'a> {
    pub outer: ListTokens,
    pub inner: Option<InnerWord<'a>>,
}

impl Words<'_> {
    /// The tokens of the outer list.
    pub(crate) fn into_outer(self) -> ListTokens
        ensures { result ≡ self.entry.outer }
    {
        let Words { outer, .. } = self;
        outer
    }
}

// The word of the list of the element that comes, if any.
fn inner_word<'a>(
    alloc: Global,
    dtd: &Dtd,
    filling: &'a Filling,
    old: &'a [Node],
) -> Result<Option<InnerWord<'a>>, NoMemory>
    requires fits { CanFill (plain_filling filling.now) (plain_all old.now) }
    requires bare { BringsBare (plain_filling filling.now) }
    ensures { IfOk result (λ inner. MatchOption inner
        (brings_element (plain_filling filling.now) ≡ false)
        (IsInnerWord (plain_dtd dtd.now) (plain_filling filling.now)
        (in_place_of (plain_filling filling.now) (plain_all old.now)))) }
{
    match who_came(filling, old) {
        None => Ok(None),
        Some(came) => {
            let word = word_of(alloc, dtd, came.kids)?;
            Ok(Some(InnerWord {
                name: came.name,
                word,
            }))
        }
    }
}

/// The words of the lists that a change of these kids changes, by the tokens before.
pub(crate) fn words_after<'a>(
    alloc: Global,
    dtd: &Dtd,
    kids: &'a [Node],
    change: &'a Change,
    before: &ListTokens,
) -> Result<Words<'a>, NoMemory>
    requires suits { SuitsChange (plain_change [] change.now) (plain_all kids.now) }
    requires bare { BringsBare (plain_filling change.now.filling) }
    requires before { AreListTokens (plain_dtd dtd.now) (forest kids.now) before.now }
    ensures { IfOk result (AreWords (plain_dtd dtd.now) (plain_change [] change.now)
        (plain_all kids.now)) }
{
    let outer = tokens_after(alloc, dtd, kids, change, before)?;
    let inner = inner_word(alloc, dtd, &change.filling, &kids[change.from..change.to])?;
    Ok(Words { outer, inner })
}
