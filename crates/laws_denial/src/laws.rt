ghost use Rattle.laws_denial.specs.Kept_out.{LockedIsKeptOut, LockedIsNotAuthenticated};
ghost use Rattle.laws_denial.specs.Leaving.{OthersLeave};
ghost use Rattle.laws_denial.specs.NoWay.{NoWayNoSuccess};

// Each of these is a law about the definitions: its contract states it.

/// If `possible_ways` lists no way to SUCCESS for the codes that the lines of a run returned, the
/// run doesn't return SUCCESS. `S` is the state that the lines of a run change.
pub fn no_way_no_success<S>()
    ensures { NoWayNoSuccess S }
{}

/// Authenticate of each module other than pam_faillock leaves USER as it is if it is set, and all
/// files.
pub fn other_modules_leave_user_and_files()
    ensures { OthersLeave }
{}

/// A user who is locked doesn't get in by a stack in which each way to SUCCESS leads over a line of
/// pam_faillock: if no listed way ends with SUCCESS as long as the lines of pam_faillock, all with
/// the same settings, return AUTH_ERR, no authentication returns SUCCESS, unless it is resumed:
/// neither the run of its stack nor `pam_authenticate(3)`.
pub fn locked_user_is_kept_out()
    ensures run { LockedIsKeptOut }
    ensures call { LockedIsNotAuthenticated }
{
    pam_handle::laws::ends_leave_it();
}
