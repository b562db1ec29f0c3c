//! What a session does over a DTD that stands in its file as it is, as a law: what `GuardsSession`,
//! of `pv_cli`, says of it without the definitions that tell what else a DTD's file may hold.
#![tactic(auto)]

pub mod laws;
