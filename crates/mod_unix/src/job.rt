use pam_room::{Call, Process};
use std::alloc::Global;

/// What the module gets and only reads: the call, the process, the time at which the application's
/// call began, and the allocator.
#[derive(Clone, Copy)]
pub struct Job<'a> {
    pub alloc: Global,
    pub call: &'a Call<'a>,
    pub process: &'a Process,
    pub moment: u64,
}
