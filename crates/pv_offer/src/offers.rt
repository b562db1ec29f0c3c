//! What is offered at a place.

ghost use Rattle.std.specs.Prelude.{◌≡◌, Bool, IfErr, IfOk, Ok, OnOk};
ghost use Rattle.std.specs.List.{AllZip};
ghost use Rattle.pv_dtd.specs.PlainForms.{plain_dtd};
ghost use Rattle.pv_offer.specs.Offers.{AreOffered, CanBeAsked, HasOfferGround, IsOffered, Picks};
ghost use Rattle.pv_offer.specs.Offers.{TellsOf, added, declared_names};

use crate::errors::OfferError;
use crate::laws::renames_law;
use crate::trying::{Tried, judge_name, try_names};
use pv_cache::Marked;
use pv_chars::{Bytes, Labels, NoMemory, bytes_of};
use pv_dtd::Dtd;
use pv_dtd::laws::proper_dtd_law;
use pv_edit::{Ask, EditAnswer};
use pv_model::NameId;
use std::alloc::Global;
use std::thread::Threads;

/// The declared names with which the edit that is asked of would be accepted, in order of
/// declaration, found by as many threads as there are processors. The document stays as it is, and
/// may have Impossible lists.
///
/// A rename never has `OfferError::Limit`.
pub fn offer(
    rt: &(impl Threads + Sync),
    alloc: Global,
    marked: &Marked,
    ask: &Ask,
) -> Result<Labels, OfferError>
    ensures offered { IfOk result (AreOffered marked.now ask.now) }
    ensures asked { OnOk result (CanBeAsked marked.now ask.now) }
    ensures refused { IfErr result (HasOfferGround marked.now ask.now) }
{
    ask_first(alloc, marked, ask)?;
    let names = names_of(alloc, marked.grammar().dtd())?;
    let tried = try_names(rt, alloc, marked, ask, &names)?;
    Ok(pick(alloc, marked, ask, &names, &tried)?)
}

// Whether the edit can be made, within the limits, found out by a Name, whichever.
fn ask_first(alloc: Global, marked: &Marked, ask: &Ask) -> Result<(), OfferError>
    ensures asked { OnOk result (CanBeAsked marked.now ask.now) }
    ensures refused { IfErr result (HasOfferGround marked.now ask.now) }
{
    marked.holdable_law();
    renames_law::<u64>();
    match judge_name(alloc, marked, ask, b"a") {
        Ok(()) => Ok(()),
        Err(EditAnswer::Impossible(_)) => Ok(()),
        Err(EditAnswer::Shape(reason)) => Err(OfferError::Shape(reason)),
        Err(EditAnswer::Limit) => Err(OfferError::Limit),
        Err(EditAnswer::NoMemory) => Err(OfferError::NoMemory),
    }
}

// The declared names, in order of declaration.
fn names_of(alloc: Global, dtd: &Dtd) -> Result<Vec<Bytes>, NoMemory>
    ensures { IfOk result (λ names. names.items ≡ declared_names (plain_dtd dtd.now)) }
{
    proper_dtd_law(dtd);
    let mut names = Vec::new(alloc);
    for number in 0..dtd.count() {
        names.push(bytes_of(alloc, dtd.name_of(NameId(number)))?)?;
    }
    Ok(names)
}

// Those of the names that may be put there.
fn pick(
    alloc: Global,
    _marked: &Marked,
    _ask: &Ask,
    names: &[Bytes],
    tried: &[Tried],
) -> Result<Labels, NoMemory>
    requires { AllZip (TellsOf _marked.now _ask.now) names.now tried.now }
    ensures { IfOk result (Picks (IsOffered _marked.now _ask.now) names.now) }
{
    let mut offered = Vec::new(alloc);
    for place in 0..names.len() {
        add_told(alloc, names[place].as_slice(), &tried[place], &mut offered)?;
    }
    Ok(Labels::of(offered))
}

// Adds a name, where it may be put there.
fn add_told(
    alloc: Global,
    name: &[u8],
    tried: &Tried,
    offered: &mut Vec<Bytes>,
) -> Result<(), NoMemory>
    ensures { OnOk result ((told : Bool) × (tried.now ≡ Ok told) ×
        (offered.new.items ≡ added told name.now offered.old.items)) }
{
    if is_offered(tried)? {
        offered.push(bytes_of(alloc, name)?)?;
    }
    Ok(())
}

// What came of a name.
fn is_offered(tried: &Tried) -> Result<bool, NoMemory>
    ensures { IfOk result (λ offered. tried.now ≡ Ok offered) }
{
    match tried {
        Ok(offered) => Ok(*offered),
        Err(_) => Err(NoMemory),
    }
}
