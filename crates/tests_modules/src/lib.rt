//! Tests of modules, each run as a line of a stack, of what no test case of tests/cases/ can show: a
//! module runs out of memory, each call of `Vault` fails in turn, and a token is empty or longer
//! than a script's line. It has no functions of its own.
#![tactic(auto)]

#[cfg(test)]
mod tests;
