ghost use Rattle.laws_check.specs.Listfile.{AllowedAreNamed, DeniedAreNotNamed};
ghost use Rattle.laws_check.specs.Nologin.{OnlyRootGoesOn};
ghost use Rattle.laws_check.specs.Securetty.{RootIsThere};
ghost use Rattle.laws_check.specs.Shells.{ShellIsListed};
ghost use Rattle.laws_check.specs.Wheel.{OnlyMembersGoOn};

// Each of these is a law about the definitions: its contract states it.

/// pam_shells returns SUCCESS, except for setcred, only if the user has an entry in passwd whose
/// shell, or /bin/sh if that is empty, is one of those of /etc/shells.
pub fn pam_shells_lets_in_listed_shells()
    ensures { ShellIsListed }
{}

/// pam_nologin returns SUCCESS or IGNORE, except for setcred, only if neither /var/run/nologin nor
/// /etc/nologin exists, or the user's ID is 0. An argument `file=` would name another file.
pub fn pam_nologin_lets_only_root_in()
    ensures { OnlyRootGoesOn }
{}

/// pam_securetty returns SUCCESS, except for setcred, only if the user has an entry in passwd, and,
/// if the user's ID is 0, TTY is set, and /etc/securetty lists it, or doesn't exist.
pub fn pam_securetty_lets_root_in_at_secure_terminals()
    ensures { RootIsThere }
{}

/// pam_wheel without `deny` and `root_only` returns SUCCESS or IGNORE, except for setcred, only if
/// the caller of the process has an entry in passwd, and is in the group that `group=` names, or
/// without that argument in wheel, or the group with the group ID 0 if there is no wheel.
pub fn pam_wheel_lets_only_members_in()
    ensures { OnlyMembersGoOn }
{}

/// pam_listfile with `item=user`, `sense=allow` and `file=`, and without `onerr=succeed`, returns
/// SUCCESS, except for setcred, only if that file has a line with the user's name.
pub fn pam_listfile_lets_in_listed_users()
    ensures { AllowedAreNamed }
{}

/// pam_listfile with `item=user`, `sense=deny` and `file=`, and without `onerr=succeed`, returns
/// SUCCESS, except for setcred, only if that file has no line with the user's name.
pub fn pam_listfile_refuses_listed_users()
    ensures { DeniedAreNotNamed }
{}
