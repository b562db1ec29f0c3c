//! How far the events of a text were read.

ghost use Rattle.std.specs.Prelude.{◌≡◌, ◌≤◌, ◌+◌, [], length};
ghost use Rattle.pv_flat.specs.declared.state.Stage.TheVariants.{Fresh};

use crate::faults::Fault;
use pv_chars::Bytes;

/// How far the events were read: nothing was yet; in the root, or at its end; an element of an
/// empty-element tag has to end; to the end of the text; up to a fault.
#[derive(Clone, Copy)]
pub enum Stage {
    Fresh,
    Inside,
    StopDue,
    Ended,
    Failed(Fault),
}

/// The events of a text, one by one.
#[derive(Drop)]
pub struct Events<'a> {
    pub(crate) root: Bytes,
    pub(crate) bytes: &'a [u8],
    pub(crate) before: &'a [u8],
    pub(crate) rest: &'a [u8],
    pub(crate) count: u64,
    pub(crate) elements: Vec<&'a [u8]>,
    pub(crate) stage: Stage,
    ghost few: { count + length rest.now ≤ length bytes.now },
    ghost none_open: { stage ≡ Fresh → elements.items ≡ [] },
}
