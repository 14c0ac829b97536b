use crate::chains::Chains;
use crate::put_off::PutOff;
use crate::wait::Wait;
use dispatch_core::pam_room::Room;
use frozen_chain::Kept;

/// A transaction (libpam's `pam_handle_t`), from `pam_start(3)` to `pam_end(3)`. It holds module data, so it can't be
/// dropped: only `end` consumes it.
///
/// Six calls run a stack: `authenticate`, `setcred`, `acct_mgmt`, `open_session`, `close_session` and `chauthtok`. If a
/// module returns INCOMPLETE, so does the call, and it is pending: the next time it resumes at that line, with the
/// flags of the new call, and doesn't repeat what it does before a pass. While a call is pending, every other one
/// returns ABORT and changes nothing. A call that has ended leaves nothing pending and no requested delay. Every call
/// except an aborted one may allocate. If an allocation fails, nothing is pending, no delay is requested, all replaced
/// module data have been cleaned up, and what is to report has only grown.
pub struct Handle {
    pub(crate) room: Room,
    pub(crate) chains: Chains,
    // The return codes cached by the last authentication, and by the last opened session.
    pub(crate) authenticated: Kept,
    pub(crate) opened: Kept,
    // Whether the application's delay function is on.
    pub(crate) delay_on: bool,
    pub(crate) pending: Option<PutOff>,
    // The last wait, if it isn't reported yet.
    pub(crate) waited: Option<Wait>,
}
