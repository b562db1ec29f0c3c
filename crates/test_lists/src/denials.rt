//! Furthest places, denials, their judge and their text: rows by public calls.

mod calls;
mod denials;
mod denying;
mod reaches;
mod texts;
