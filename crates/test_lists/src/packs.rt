//! Tests of packs, written, read and verified, of their tables, and of events.

mod events;
mod kept;
mod packs;
mod tables;
mod verified;
