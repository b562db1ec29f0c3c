//! The numbers at which missing elements are no longer counted.

/// The most missing elements that are counted: a document that needs more is too heavy.
pub const MAX_MISSING: u32 = 1_000_000;

/// The weight of what needs more missing elements than are counted, or can't be completed at all.
pub const HEAVIEST: u32 = 1_000_001;

const _: () = prove!(MAX_MISSING + 1 == HEAVIEST);
