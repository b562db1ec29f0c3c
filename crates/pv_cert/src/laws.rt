//! The laws of packs, each the contract of a function that does nothing.

ghost use Rattle.pv_cert.specs.Laws.{OneMeaning};

/// Bytes mean at most one thing as a pack: one pack, or one first line at fault, or that a limit is
/// passed.
pub fn one_meaning_law()
    ensures { OneMeaning }
{}
