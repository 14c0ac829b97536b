//! Tests of a conversation over a terminal, whose reader or writer fails, and over pipes of the
//! system. It has no functions of its own.
#![tactic(auto)]

#[cfg(test)]
mod tests;
