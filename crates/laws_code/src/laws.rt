ghost use Rattle.mod_basic.specs.Permit.{permit_plays};
ghost use Rattle.mod_basic.specs.Deny.{deny_plays};
ghost use Rattle.mod_basic.specs.Debug.{debug_plays};
ghost use Rattle.mod_basic.specs.Rootok.{rootok_plays};
ghost use Rattle.mod_basic.specs.Probe.{probe_plays};
ghost use Rattle.mod_lists.specs.Nologin.{nologin_plays};
ghost use Rattle.mod_lists.specs.Shells.{shells_plays};
ghost use Rattle.mod_lists.specs.Listfile.{listfile_plays};
ghost use Rattle.mod_lists.specs.SucceedIf.{succeed_if_plays};
ghost use Rattle.mod_env.specs.Env.{env_plays};
ghost use Rattle.mod_unix.specs.Unix.{unix_plays};
ghost use Rattle.mod_tally.specs.Faillock.{faillock_plays};
ghost use Rattle.mod_history.specs.Pwhistory.{pwhistory_plays};
ghost use Rattle.mod_history.specs.Securetty.{securetty_plays};
ghost use Rattle.mod_history.specs.Wheel.{wheel_plays};
ghost use Rattle.laws_code.specs.Codes.{deny_codes, env_codes, faillock_codes};
ghost use Rattle.laws_code.specs.Codes.{listfile_codes, nologin_codes, pwhistory_codes};
ghost use Rattle.laws_code.specs.Codes.{permit_codes, rootok_codes, securetty_codes, shells_codes};
ghost use Rattle.laws_code.specs.Codes.{succeed_if_codes, unix_codes, wheel_codes};
ghost use Rattle.laws_code.specs.Returns.{ReturnsEach, ReturnsOf};
ghost use Rattle.laws_code.specs.Succeeds.{DenyNeverSucceeds, NologinSucceedsIfTold};
ghost use Rattle.laws_code.specs.Succeeds.{RootokSucceedsForRoot, WheelSucceedsIfTrusting};

// Each of these is a law about the definitions: its contract states it.

/// pam_permit returns SUCCESS.
pub fn permit_returns()
    ensures { ReturnsOf permit_plays permit_codes }
{}

/// pam_deny returns one code at each function, and never SUCCESS.
pub fn deny_returns()
    ensures { ReturnsOf deny_plays deny_codes }
{}

/// No call of pam_deny succeeds.
pub fn deny_never_succeeds()
    ensures { DenyNeverSucceeds }
{}

/// pam_debug returns each code, if its arguments say so.
pub fn debug_returns_each()
    ensures { ReturnsEach debug_plays }
{}

/// pam_probe returns each code, if its arguments say so.
pub fn probe_returns_each()
    ensures { ReturnsEach probe_plays }
{}

/// The codes of pam_rootok.
pub fn rootok_returns()
    ensures { ReturnsOf rootok_plays rootok_codes }
{}

/// A call of pam_rootok other than setcred succeeds only for the caller 0.
pub fn rootok_succeeds_for_root()
    ensures { RootokSucceedsForRoot }
{}

/// The codes of pam_nologin.
pub fn nologin_returns()
    ensures { ReturnsOf nologin_plays nologin_codes }
{}

/// A call of pam_nologin succeeds only with the argument `successok`.
pub fn nologin_succeeds_if_told()
    ensures { NologinSucceedsIfTold }
{}

/// The codes of pam_shells.
pub fn shells_returns()
    ensures { ReturnsOf shells_plays shells_codes }
{}

/// The codes of pam_securetty.
pub fn securetty_returns()
    ensures { ReturnsOf securetty_plays securetty_codes }
{}

/// The codes of pam_wheel.
pub fn wheel_returns()
    ensures { ReturnsOf wheel_plays wheel_codes }
{}

/// A call of pam_wheel other than setcred succeeds only with the argument `trust`.
pub fn wheel_succeeds_if_trusting()
    ensures { WheelSucceedsIfTrusting }
{}

/// The codes of pam_listfile.
pub fn listfile_returns()
    ensures { ReturnsOf listfile_plays listfile_codes }
{}

/// The codes of pam_succeed_if.
pub fn succeed_if_returns()
    ensures { ReturnsOf succeed_if_plays succeed_if_codes }
{}

/// The codes of pam_env.
pub fn env_returns()
    ensures { ReturnsOf env_plays env_codes }
{}

/// The codes of pam_faillock. Its acct_mgmt never refuses a user who is locked.
pub fn faillock_returns()
    ensures { ReturnsOf faillock_plays faillock_codes }
{}

/// The codes of pam_unix.
pub fn unix_returns()
    ensures { ReturnsOf unix_plays unix_codes }
{}

/// The codes of pam_pwhistory.
pub fn pwhistory_returns()
    ensures { ReturnsOf pwhistory_plays pwhistory_codes }
{}
