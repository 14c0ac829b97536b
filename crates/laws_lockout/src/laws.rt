ghost use Rattle.laws_lockout.specs.Lockout.{WrongPasswordsLockOut};

// This is a law about the definitions: its contract states it.

/// After at least `deny` wrong passwords within `fail_interval` that pam_faillock recorded for a
/// user, in whatever transactions, and since which the failures weren't cleared, the user's next
/// `pam_authenticate(3)` is denied until `unlock_time` has passed. Of the configuration it needs
/// that all its lines of pam_faillock have one `fail_interval`, and that its stack of
/// authentication has no way round that module.
pub fn wrong_passwords_lock_out()
    ensures { WrongPasswordsLockOut }
{
    mod_tally::laws::recorded_failures_are_kept();
    mod_tally::laws::written_tallies_are_read();
    pam_library::laws::steps_change_files_by_plays();
    laws_audit::tally_laws::other_modules_leave_tallies();
    laws_lock::laws::enough_failures_lock();
    laws_lock::laws::locked_user_is_denied();
    laws_denial::laws::locked_user_is_kept_out();
    pam_handle::laws::ends_leave_it();
}
