//! The document of a drill as a tree, while the drill's lines are answered: what its text spells,
//! the verdicts of its lists, and what an edit of a section makes of it (`specs/Sections.antt`,
//! `specs/Laws.antt`). Each function here does nothing: its contract is a law.
#![tactic(auto)]

pub mod laws;
