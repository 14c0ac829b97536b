//! Tests of the program: what it prints, and what it leaves, if calls of the input, the output or
//! the files are set to fail. It has no functions of its own.
#![tactic(auto)]

#[cfg(test)]
mod tests;
