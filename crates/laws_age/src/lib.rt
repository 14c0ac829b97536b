//! Only laws on how passwords and accounts age: what pam_unix's acct_mgmt says from day to day.
#![tactic(auto)]

pub mod laws;
