ghost use Rattle.laws_lock.specs.Denied.{LockedIsDenied};
ghost use Rattle.laws_lock.specs.Failed.{EnoughFailuresLock, WrongPasswordsLock};
ghost use Rattle.laws_lock.specs.Locked.{LockedIsRefused};
ghost use Rattle.laws_lock.specs.Usual.{AuthfailRecords, RefusedIsRecorded};

// Each of these is a law about the definitions: its contract states it.

/// pam_faillock's authenticate with `preauth` returns AUTH_ERR for a user who is locked, takes no
/// lock and does nothing else.
pub fn locked_user_is_refused()
    ensures { LockedIsRefused }
{}

/// If a stack's first line is `requisite pam_faillock.so preauth ..`, the authentication of a user
/// who is locked returns AUTH_ERR, and no other line is run.
pub fn locked_user_is_denied()
    ensures { LockedIsDenied }
{
    locked_user_is_refused();
}

/// After at least `deny` failures within `fail_interval` that pam_faillock recorded for a user, in
/// whatever transactions, and since which the failures weren't cleared, the user is locked until
/// `unlock_time` has passed, if no other module wrote the user's file.
pub fn enough_failures_lock()
    ensures { EnoughFailuresLock }
{
    mod_tally::laws::recorded_failures_are_kept();
}

/// Then pam_faillock's authenticate with `preauth` returns AUTH_ERR.
pub fn wrong_passwords_lock()
    ensures { WrongPasswordsLock }
{
    locked_user_is_refused();
    enough_failures_lock();
}

/// pam_faillock's authenticate with `authfail` records a failure of a user who isn't locked, and
/// returns IGNORE, if no access fails, the user has an entry in passwd, and isn't root, or
/// `even_deny_root` is given, the user's file isn't damaged, and has room for one more.
pub fn authfail_records()
    ensures { AuthfailRecords }
{}

/// In the usual stack a refused password is recorded. Its first three lines are
/// `requisite pam_faillock.so preauth ..`, a line that verifies the password, with `bad` for every
/// code except SUCCESS, as `[success=1 default=bad] pam_unix.so`, and
/// `[default=die] pam_faillock.so authfail ..`. If the first returns SUCCESS, and the second
/// neither SUCCESS nor INCOMPLETE, and USER is set, the run doesn't return SUCCESS, runs these three
/// lines alone, and the failure is in the user's file, if one can be recorded after the second
/// line.
pub fn refused_password_is_recorded()
    ensures { RefusedIsRecorded }
{
    authfail_records();
}
