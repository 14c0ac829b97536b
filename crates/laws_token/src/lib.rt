//! Only laws on tokens: what was set before an authentication or a change of token doesn't matter to it, and none is set
//! while an authentication waits.
#![tactic(auto)]

pub mod laws;
