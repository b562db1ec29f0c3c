//! What a run of the program (`Runs`, of `pv_cli`) comes to, as laws: over given files a command
//! has one response (`specs/Alike.antt`), each status has its cause (`specs/Causes.antt`), what is
//! within the limits is answered (`specs/Within.antt`), and what `verify` and `deny` accept is so,
//! whoever made it. Whoever runs the program needs none of them, so they stand after it.
#![tactic(auto)]

pub mod laws;
