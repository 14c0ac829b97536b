//! Tests of `system_objects`: the adapters over readers, writers, the clock and the files of the
//! system. It has no functions of its own.
#![tactic(auto)]

#[cfg(test)]
mod tests;
