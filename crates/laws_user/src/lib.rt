//! Only laws on what users have to do with each other: nothing, for each call over pam_unix and pam_faillock.
#![tactic(auto)]

pub mod laws;
