//! Worked rows of `verify`, `standoff`, `why` and `deny`, and each command on devices that fail,
//! through the top call.

mod annotations;
mod certificates;
mod denials;
mod devices;
mod packs;
