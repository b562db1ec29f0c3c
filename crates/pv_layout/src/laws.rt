//! The law of columns, the contract of a function that does nothing.

ghost use Rattle.pv_layout.specs.Laws.{ColumnsDerive};

/// What a site derives, its column does: so a table that is closed under the rules of columns is
/// below each derivation of a site.
pub fn columns_derive_law()
    ensures { ColumnsDerive }
{}
