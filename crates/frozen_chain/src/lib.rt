//! The return codes that a first run of a stack caches for the run that follows it, one cell for
//! each line: libpam's frozen chain (`pam_dispatch.c`; the Module Writers' Guide: setcred takes the
//! path of the authenticate before it); and those of an incomplete run, with which it is resumed.
#![tactic(auto)]

mod cached;
mod kept;
mod paused;

pub use cached::Cached;
pub use kept::Kept;
pub use paused::Paused;
