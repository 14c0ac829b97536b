use pam_room::{Call, Process};
use std::alloc::Global;

/// What a module gets and only reads: its call, the process, and the allocator.
#[derive(Clone, Copy)]
pub struct WorkInput<'a> {
    pub alloc: Global,
    pub call: &'a Call<'a>,
    pub process: &'a Process,
}
