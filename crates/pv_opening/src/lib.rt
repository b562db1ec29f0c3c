//! The order of work, up to a document that was opened: stages, one after another, each of which
//! opens something, or refuses with a response, or stops (`specs/Stage.antt`). A run takes a course
//! through them (`specs/Course.antt`), and its devices show it (`specs/ShownCourses.antt`). Here
//! are the stages that several commands share: the files of a DTD and a document
//! (`specs/Opening.antt`, `specs/Documents.antt`), and whether inserting elements can make it valid
//! (`specs/Possibility.antt`); and the writing of a response.
#![tactic(auto)]

mod opening;
mod possibility;
mod response;
mod status;
mod stop;
mod writing;

pub use opening::{
    Fetched, Named, Opened, dtd_of, fetch, fetch_files, open_document, open_dtd, open_files,
    refuse, refuse_document, refuse_item, refuse_numbers, refuse_path,
};
pub use possibility::{narrow_verdicts, narrow_verdicts_by, possible_line};
pub use response::Response;
pub use status::Status;
pub use stop::Stop;
pub use writing::respond;
