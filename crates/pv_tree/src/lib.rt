//! Document trees, and whether a document is valid (XML 1.0, section 3).
//!
//! A node is an element, a text, a CDATA section, or a comment or processing instruction; its
//! plain form, which contracts speak of, is a `Tree` (specs/Plain.antt). A `Doc` keeps what
//! specs/Legal.antt and Units.antt say of its tree, and that a prolog and an epilog stand around
//! it (specs/Prolog.antt; specs/Attributes.antt has attributes and character data). `Path`s name
//! nodes and lists (specs/Places.antt), `word` is the word of a list (specs/Words.antt), and
//! `first_invalid` tells the first list that isn't valid by itself (specs/Lists.antt): there is
//! none exactly where the hedge that the document shows is valid (specs/View.antt, and pv_dtd).
#![tactic(auto)]

mod document;
pub mod laws;
mod nodes;
mod paths;
mod places;
mod search;
mod validity;
mod walk;
mod words;

pub use document::Doc;
pub use nodes::{End, Mark, Node, Nodes, Verdict};
pub use paths::Path;
pub use places::Found;
pub use search::{ListTest, first_list};
pub use validity::first_invalid;
pub use walk::{DocList, Lists, OwnerName};
pub use words::{Tokens, name_token, word};
