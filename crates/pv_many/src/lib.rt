//! Many documents, one after another: the names of their files come from the input, each ended by a
//! NUL (`specs/Names.antt`), and each is answered as a command of `pvtag` answers for a document
//! (`specs/Answers.antt`), before more of the input is asked for. The DTD is opened once, and a
//! fault of one document ends nothing. `pvmany` promises the status and the bytes that are defined
//! for its words, its files and its input, and how often these are asked (`specs/Many.antt`).
#![tactic(auto)]

mod answering;
mod archive;
mod documents;
mod input;
mod inquiry;
mod missing;
mod planner;
mod possibility;
mod program;
mod requests;
mod valid_text;

pub use archive::{Archive, FolderArchive};
pub use program::pvmany;
