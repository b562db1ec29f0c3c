//! Calls of the crates of characters and devices, of content models and DTDs, of edits, of scripts,
//! and of ranges: each public function by rows, with ample memory.
#![tactic(auto)]

#[cfg(test)]
mod base;
#[cfg(test)]
mod dtd;
#[cfg(test)]
mod edit;
#[cfg(test)]
mod rematch;
#[cfg(test)]
mod script;
#[cfg(test)]
mod standoff;
#[cfg(test)]
mod tokens;
