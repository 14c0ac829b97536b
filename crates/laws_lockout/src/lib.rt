//! Only laws on wrong passwords: who gave too many of them, in whatever transactions, is denied.
#![tactic(auto)]

pub mod laws;
pub mod refused_laws;
