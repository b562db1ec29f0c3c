//! What `pvmany need` answers (`TellsMissing`, of `pv_many`) is what a session replies to `need`
//! (`EndsSession`, of `pv_conversation`), to the byte. Each function here does nothing: its
//! contract is a law.
#![tactic(auto)]

pub mod laws;
