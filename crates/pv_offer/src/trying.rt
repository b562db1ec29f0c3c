//! Names tried, each by its edit, by several threads.

ghost use Rattle.std.specs.Prelude.{◌≡◌, ◌<◌, IfErr, IfOk, OnOk, ℕ};
ghost use Rattle.std.specs.List.{AllZip};
ghost use Rattle.pv_cache.specs.AcceptedEdits.{IsAccepted};
ghost use Rattle.pv_cache.specs.Moves.{HasGround};
ghost use Rattle.pv_offer.specs.Offers.{TellsOf, edit_with};
ghost use Rattle.pv_tree.specs.Plain.{PlainDoc};

use pv_cache::Marked;
use pv_cache::laws::accepted_law;
use pv_chars::{Bytes, NoMemory, bytes_of};
use pv_edit::{Ask, Edit, EditAnswer};
use pv_steps::Steps;
use pv_tree::Path;
use rayon::prelude::*;
use std::alloc::{AllocError, Global};
use std::marker::Brand;
use std::sync::ledger::{Blank, Ledger};
use std::thread::Threads;

/// Whether a name may be put there.
pub(crate) type Tried = Result<bool, NoMemory>;

// Names, at least, that are worth a thread.
const NAMES_BY_ONE_THREAD: usize = 4;

// The edit that is asked of, with this name.
fn edit_of(alloc: Global, ask: &Ask, name: &[u8]) -> Result<Edit, NoMemory>
    ensures { IfOk result (λ edit. edit ≡ edit_with ask.now name.now) }
{
    let name = bytes_of(alloc, name)?;
    match ask {
        Ask::Wrap { path, from, to } => {
            let path = Path::new(alloc, path.places())?;
            Ok(Edit::Wrap {
                path,
                from: *from,
                to: *to,
                name,
            })
        }
        Ask::Rename { path } => {
            let path = Path::new(alloc, path.places())?;
            Ok(Edit::Rename { path, name })
        }
    }
}

// Judges the edit on a counter of its own.
fn judge_on<L: Ledger>(marked: &Marked, edit: &Edit, blank: Blank) -> Result<(), EditAnswer>
    requires name { blank.name ≡ L.name }
    requires parts { blank.parts ≡ L.parts }
    requires some { 0 < L.parts }
    ensures accepted { OnOk result ((edited : PlainDoc ℕ) ×
        IsAccepted 0 marked.now.dtd marked.now.root marked.now.doc edit.now edited) }
    ensures refused { IfErr result (HasGround 0 marked.now.dtd marked.now.root marked.now.doc
        edit.now) }
{
    let mut steps = Steps::<L>::start(blank);
    marked.judge(edit, &mut steps)
}

// Judges an edit: Ok where it is accepted, else the ground on which it is refused.
fn judge_alone(marked: &Marked, edit: &Edit) -> Result<(), EditAnswer>
    ensures accepted { OnOk result ((edited : PlainDoc ℕ) ×
        IsAccepted 0 marked.now.dtd marked.now.root marked.now.doc edit.now edited) }
    ensures refused { IfErr result (HasGround 0 marked.now.dtd marked.now.root marked.now.doc
        edit.now) }
{
    judge_on::<Brand>(marked, edit, Blank::new(1))
}

/// Judges the edit that is asked of, with this name: Ok where it is accepted, else the ground on
/// which it is refused.
pub(crate) fn judge_name(
    alloc: Global,
    marked: &Marked,
    ask: &Ask,
    name: &[u8],
) -> Result<(), EditAnswer>
    ensures accepted { OnOk result ((edited : PlainDoc ℕ) ×
        IsAccepted 0 marked.now.dtd marked.now.root marked.now.doc
        (edit_with ask.now name.now) edited) }
    ensures refused { IfErr result (HasGround 0 marked.now.dtd marked.now.root marked.now.doc
        (edit_with ask.now name.now)) }
{
    let edit = edit_of(alloc, ask, name)?;
    judge_alone(marked, &edit)
}

// Whether this name may be put there.
fn try_name(alloc: Global, marked: &Marked, ask: &Ask, name: &[u8]) -> Tried
    ensures { TellsOf marked.now ask.now name.now result }
{
    accepted_law::<u64, u64>();
    match judge_name(alloc, marked, ask, name) {
        Ok(()) => Ok(true),
        Err(EditAnswer::NoMemory) => Err(NoMemory),
        Err(EditAnswer::Shape(_)) => Ok(false),
        Err(EditAnswer::Limit) => Ok(false),
        Err(EditAnswer::Impossible(_)) => Ok(false),
    }
}

/// Tries names, by as many threads as there are processors; what came of them stands in their
/// order.
pub(crate) fn try_names(
    rt: &(impl Threads + Sync),
    alloc: Global,
    marked: &Marked,
    ask: &Ask,
    names: &[Bytes],
) -> Result<Vec<Tried>, AllocError>
    ensures { IfOk result (λ tried. AllZip (TellsOf marked.now ask.now) names.now tried.items) }
{
    names
        .par_iter()
        .with_min_len(NAMES_BY_ONE_THREAD)
        .map(
            |name: &Bytes| -> Tried
                ensures { TellsOf marked.entry.now ask.entry.now name.now result }
            { try_name(alloc, marked, ask, name.as_slice()) },
        )
        .collect(rt, alloc)
}
