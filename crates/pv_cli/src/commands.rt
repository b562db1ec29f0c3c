//! The commands that answer a script in a session.

pub mod drill;
pub mod session;
