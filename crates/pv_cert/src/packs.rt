//! Packs.

use pv_chars::{Bytes, Numbers};
use pv_tables::Tables;

/// The most bytes of the text of a pack.
pub const MAX_PACK_BYTES: usize = 1_073_741_824;

/// A completed document, with what shows that no smaller completion exists.
#[derive(Debug, Drop)]
pub struct Pack {
    /// How many elements were inserted.
    pub total: u64,
    /// Their numbers among the elements of the body, counted from 0 in document order.
    pub marks: Numbers,
    /// The bytes of the completed document.
    pub body: Bytes,
    /// Tables of weights, one for each list that isn't valid by itself.
    pub tables: Tables,
}
