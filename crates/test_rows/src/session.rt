//! Worked rows of `session` and `complete`, through the top call.

mod drills;
mod needs;
mod packs;
mod repairs;
mod scripts;
mod verdicts;
mod widths;
