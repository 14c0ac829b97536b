//! Tests of one transaction, by its public calls, with modules that do what the shipped ones don't
//! show. It has no functions of its own.
#![tactic(auto)]

#[cfg(test)]
mod tests;
