//! Only laws: each call that runs a stack succeeds only by a listed way. So do runs by cached codes, runs without them,
//! and both passes of a change of token.
#![tactic(auto)]

pub mod laws;
