//! A test of frames: what is written is read again, in pieces. It has no functions of its own.
#![tactic(auto)]

#[cfg(test)]
mod tests;
