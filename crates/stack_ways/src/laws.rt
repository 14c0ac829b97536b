ghost use Rattle.stack_ways.specs.Laws.{CachedRunsGoByWays, EndsAsItMay, GrantedBy, GrantedRunsAgain, IsRun, ListsAll};

/// "A stack may end so" holds for its runs: each first run that has ended, and whose lines returned
/// possible codes, ends as its stack may end; and for each way in which it may end there is a run.
pub fn may_end_is_a_run<S>()
    ensures ends { EndsAsItMay S }
    ensures run { IsRun S }
{}

/// The ways that `possible_ways` lists are all: a run ends in a state only if all lines of a way
/// that is listed with this state counted.
pub fn listed_ways_are_all<S>()
    ensures { ListsAll S }
{}

/// Who gets in: a run returns SUCCESS only if all lines of one of the ways that are listed with it
/// said yes.
pub fn granted_by_listed_ways<S>()
    ensures { GrantedBy S }
{}

/// Runs by cached codes: chauthtok's second pass by those of its first, setcred by those of
/// authenticate, close_session by those of open_session. The first run ended by a listed way all of
/// whose lines counted, and once the later run has ended, each of these lines was run in it, too;
/// so if the first run returned SUCCESS, this way is one of those that are listed with SUCCESS.
pub fn cached_runs_go_by_listed_ways<S>()
    ensures ways { CachedRunsGoByWays S }
    ensures granted { GrantedRunsAgain S }
{}
