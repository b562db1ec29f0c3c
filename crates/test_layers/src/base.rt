//! Tests of the base: characters, names and texts, and devices.

mod characters;
mod devices;
mod tables;
