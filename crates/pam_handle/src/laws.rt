ghost use Rattle.pam_handle.specs.AfterPasses.{EndsLeaveIt};

// The laws of this crate, for the proofs of its callers.

/// What is done after the passes of a stack call changes neither its code, nor what is held for later calls, nor the
/// stacks, the trace, the files or what the process has.
pub fn ends_leave_it()
    ensures { EndsLeaveIt }
{}
