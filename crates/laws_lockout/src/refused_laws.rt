ghost use Rattle.laws_lockout.specs.Refused.{RefusedPasswordsLockOut};

// This is a law about the definitions: its contract states it.

/// After at least `deny` calls of `pam_authenticate(3)` within `fail_interval` in which a user's
/// password was refused, in whatever transactions, the user's next one is denied until
/// `unlock_time` has passed. The stack of each of these calls begins as the usual one
/// (`requisite pam_faillock.so preauth`, `[success=1 default=bad] pam_unix.so`,
/// `[default=die] pam_faillock.so authfail`), with the same settings, and its trace shows that the
/// first line returned SUCCESS, and the second neither SUCCESS nor INCOMPLETE. USER is set, no
/// access to a file fails then, and the user's file has room for one more failure, and wasn't
/// damaged at the start. Other calls may be made in between, if they don't clear the user's
/// failures, as `authsucc` does after a right password. Of the configuration the law needs that all
/// its lines of pam_faillock have one `fail_interval`.
pub fn refused_passwords_lock_out()
    ensures { RefusedPasswordsLockOut }
{
    mod_tally::laws::recorded_failures_are_kept();
    mod_tally::laws::written_tallies_are_read();
    pam_library::laws::steps_change_files_by_plays();
    laws_audit::tally_laws::other_modules_leave_tallies();
    laws_lock::laws::enough_failures_lock();
    laws_lock::laws::locked_user_is_refused();
    laws_lock::laws::locked_user_is_denied();
    laws_lock::laws::refused_password_is_recorded();
    laws_denial::laws::other_modules_leave_user_and_files();
    laws_denial::laws::locked_user_is_kept_out();
    pam_handle::laws::ends_leave_it();
}
