//! Only laws on who is kept out: no run returns SUCCESS by lines without a way to it, and a user who is locked is kept
//! out by each stack that has no way round pam_faillock.
#![tactic(auto)]

pub mod laws;
