//! The items of a document at the front of some bytes, one file a form.

mod attributes;
mod doctypes;
mod external_ids;
mod items;
mod known;
mod markup;
mod reading;
mod references;
mod sorts;
mod tags;
mod texts;
mod values;

pub use doctypes::begins_subset;
pub use items::{Item, Tag};
pub use known::has_known_references;
pub use reading::item_at;
pub use texts::run_at;
