//! The lists of a document, one after another where they end, in one pass over its bytes and
//! without a tree.
//!
//! `read_lists` reads what `read_doc` of `pv_read` reads, within any limits, and refuses what that
//! refuses, with its numbers. Of each open element the word of its list so far is kept (`IsOpen`,
//! specs/OpenLists.antt); where the element ends, a judge is asked of its list (`ListJudge`): by
//! its element's token, by its word, and by where it stands. What the judge finds of the lists that
//! are whole is said by a relation of its own (`Judgement`, specs/Judgements.antt), which holds in
//! the end of all lists below the document node.
#![tactic(auto)]

mod content;
mod ending;
mod errors;
mod items;
mod judging;
mod open;
mod reading;
mod types;

pub use errors::ReadError;
pub use judging::ListJudge;
pub use open::{OpenList, OpenLists, places_in};
pub use reading::read_lists;
