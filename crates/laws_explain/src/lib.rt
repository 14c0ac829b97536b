//! Only laws on what `explain` shows: each rule of a stack has one row, and the last line has the code of the call.
#![tactic(auto)]

pub mod laws;
