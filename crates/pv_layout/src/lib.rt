//! A grammar laid out in columns, once for all words.
//!
//! Sites that stand for the same words share a column (`specs/Columns.antt`). What stands in each
//! is a form (`Form`), whose rules `specs/ColumnRules.antt` has; `lay_out` gives a grammar its
//! columns. By `columns_derive_law` a column derives what its sites do, at the same weight. Whoever
//! lowers values of columns asks which ones mention another (`Mentions`). Nothing here knows of
//! tables: weights over spans and bounds of what is missing are made by the crates above.
#![tactic(auto)]

mod forms;
pub mod laws;
mod laying;
mod layout;
mod making;
mod mentions;
mod sites;

pub use forms::Form;
pub use layout::{ColumnLayout, Columns, lay_out};
pub use mentions::{Mentions, mentioned};
pub use sites::{SiteColumns, Sites};
