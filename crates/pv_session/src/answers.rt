//! What a session answers to an undo or a redo.

/// Why nothing was undone or redone. `NoHistory`: there was no edit to undo, or none to redo.
/// `NoMemory`: there was too little memory.
///
/// A session prints the first as `no history`.
#[derive(Debug, Drop)]
pub enum BackAnswer {
    NoHistory,
    NoMemory,
}
