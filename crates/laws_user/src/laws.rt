ghost use Rattle.laws_user.specs.Calls.{CallsWriteOwn, OthersDontMatterToCalls, TheseKeepToOwn};
ghost use Rattle.laws_user.specs.Logins.{CallsDontMatter};
ghost use Rattle.laws_user.specs.Users.{UsersDontMatterToEachOther};

// Each of these is a law about the definitions: its contract states it.

/// What other users have in shadow and in their tallies doesn't matter to a user whom pam_unix and
/// pam_faillock serve: with other files that look the same to the user, each call of one of their
/// functions returns the same code, does the same to the transaction, and leaves files that look
/// the same to the user. So a list of such calls does, too. For a change of token both shadows must
/// have room for a new hash of the user, and the time is one that a clock gives.
pub fn users_dont_matter_to_each_other()
    ensures { UsersDontMatterToEachOther }
{
    laws_module::laws::other_entries_dont_matter();
    laws_module::laws::other_entries_stay();
    laws_module::laws::other_tallies_dont_matter();
}

/// Of all files, each function of pam_unix, pam_faillock, pam_permit, pam_deny, pam_debug,
/// pam_rootok and pam_probe looks only at passwd and at the user's own entries, and changes only the
/// user's own tally, and in a change of token the user's own entry of shadow.
pub fn these_modules_keep_to_own_entries()
    ensures { TheseKeepToOwn }
{
    users_dont_matter_to_each_other();
    laws_module::laws::other_entries_stay();
    laws_module::laws::other_tallies_dont_matter();
    laws_denial::laws::other_modules_leave_user_and_files();
}

/// What other users have in shadow and in their tallies doesn't matter to `pam_authenticate(3)`,
/// `pam_setcred(3)`, `pam_acct_mgmt(3)`, `pam_open_session(3)`, `pam_close_session(3)` and
/// `pam_chauthtok(3)` over a stack of such modules: with other files that look the same to the user,
/// each returns the same code, asks the same, leaves the same transaction, and files that look the
/// same to the user. And it changes no file but the user's own tally; `pam_chauthtok(3)` also
/// shadow, in which the entries of all others stay.
pub fn users_dont_matter_to_calls()
    ensures same { OthersDontMatterToCalls }
    ensures others { CallsWriteOwn }
{
    pam_handle::laws::ends_leave_it();
}

/// So other users don't matter who log in or change their tokens meanwhile, in whatever processes,
/// whether they succeed or fail: a user's call returns the same code, asks the same, and leaves the
/// same transaction and files that look the same to the user. If it is a change of token, shadow
/// must have room for a new hash of the user, before and after what the others do.
pub fn other_calls_dont_matter()
    ensures { CallsDontMatter }
{
    users_dont_matter_to_calls();
}
