//! Tests of a flattened stack: how often a run looks lines up, and that this doesn't grow with the
//! lines that it doesn't reach. It has no functions of its own.
#![tactic(auto)]

#[cfg(test)]
mod tests;
