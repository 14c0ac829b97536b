//! Only laws on what a hash costs: how many texts SHA-crypt digests, and how long they are.
#![tactic(auto)]

pub mod laws;
