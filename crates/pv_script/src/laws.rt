//! Laws on lines and commands. Their functions do nothing.

ghost use Rattle.pv_script.specs.Laws.{OneCommand, CommandOrNone, EditsAreReadAgain};

pub use pv_words::laws::lines_law;

/// A line spells exactly one command, or none.
pub fn one_command_law()
    ensures one { OneCommand }
    ensures some { CommandOrNone }
{}

/// The line of an edit that applies to some document, and whose numbers are at most 4294967295, is
/// cut out of a script as it is, where an LF ends it, and is read again as that edit. `M` is the
/// type of marks.
pub fn edit_line_law<M>()
    ensures { EditsAreReadAgain M }
{}
