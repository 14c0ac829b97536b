//! Only laws on modules that check the user: whom pam_shells, pam_nologin, pam_securetty,
//! pam_wheel and pam_listfile let in.
#![tactic(auto)]

pub mod laws;
