//! Only laws on return codes: which of them each module returns at which function.
#![tactic(auto)]

pub mod laws;
