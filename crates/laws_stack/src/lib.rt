//! Only laws on what the return code of a stack says of its lines: SUCCESS needs a line that returned it, and a failed
//! `required` or `requisite` line denies.
#![tactic(auto)]

pub mod laws;
