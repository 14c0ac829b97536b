ghost use Rattle.laws_way.specs.Cached.{CachedGrantedBy};
ghost use Rattle.laws_way.specs.Calls.{AuthenticationCaches, CallsGrantedBy, SessionCaches};
ghost use Rattle.laws_way.specs.Loose.{LooseEndsByWays, LooseGoesAsFirst, LooseGrantedBy};
ghost use Rattle.laws_way.specs.Resumed.{LeftInUpdateByTrace, ResumedCallsGrantedBy, ResumedChangesGrantedBy, ResumedUpdatesGrantedBy};
ghost use Rattle.laws_way.specs.Token.{FailedCheckEnds, LeftInUpdate, TokenChangedByWays, TokenUpdatedByWays};
ghost use Rattle.laws_way.specs.Traced.{TracedAuthenticationCaches, TracedCallsGrantedBy, TracedChangesGrantedBy, TracedClosingGrantedBy, TracedCredentialsGrantedBy, TracedSessionCaches};

// Each of these is a law about the definitions: its contract states it. `S` is the state that the
// lines of a run change.

/// A run without cached codes (`pam_setcred(3)` without an authentication, `pam_close_session(3)`
/// without an opened session) runs the lines of a first run, which return the same codes and change
/// the same. If it ends, it does so by a way that is listed, all of whose lines counted. Only its
/// own code may be another one, since jumps count in it: it returns SUCCESS only if all lines of
/// one of the ways that are listed with SUCCESS said yes, or of one in which only jumps decided.
pub fn runs_without_cached_codes_go_by_listed_ways<S>()
    ensures first { LooseGoesAsFirst S }
    ensures ways { LooseEndsByWays S }
    ensures granted { LooseGrantedBy S }
{}

/// A run by the codes that a first run cached (`pam_setcred(3)`, `pam_close_session(3)`) returns
/// SUCCESS only if that first run didn't end denied by a line, and all lines of the listed way by
/// which it ended are run again. Each line whose control lets its cached code count returns SUCCESS
/// or IGNORE again, unless a `reset` follows.
pub fn cached_runs_succeed_by_listed_ways<S>()
    ensures { CachedGrantedBy S }
{}

/// `pam_chauthtok(3)` returns SUCCESS only if both passes do: all lines of one of the ways that are
/// listed with SUCCESS said yes in the first, with PAM_PRELIM_CHECK; and all of them are run again
/// in the second, with PAM_UPDATE_AUTHTOK, in which each line whose control lets its code of the
/// first count returns SUCCESS or IGNORE, unless a `reset` follows. If the first pass returns
/// another code, that is the call's, and the second isn't run. A call that is left incomplete in
/// its second pass keeps the codes of a first one that returned SUCCESS, and is resumed by these.
pub fn token_is_changed_by_a_listed_way<S>()
    ensures changed { TokenChangedByWays S }
    ensures failed { FailedCheckEnds S }
    ensures left { LeftInUpdate S }
    ensures resumed { TokenUpdatedByWays S }
{}

/// Each of the six calls that run a stack returns SUCCESS only by a listed way: whether it begins
/// or is resumed, and whatever its lines do. An authentication caches the codes by which setcred
/// goes, and an opened session those by which close_session does.
pub fn calls_succeed_by_listed_ways<S>()
    ensures pass { CallsGrantedBy S }
    ensures authentication { AuthenticationCaches S }
    ensures session { SessionCaches S }
{}

/// The same of each call with real objects, too, by the lines that it added to the trace: nobody
/// gets in unless all lines of one of the listed sets are among these, and said yes. The codes of
/// these lines are cached after an authentication, for setcred, and after an opened session, for
/// close_session.
pub fn traced_calls_succeed_by_listed_ways()
    ensures pass { TracedCallsGrantedBy }
    ensures change { TracedChangesGrantedBy }
    ensures authentication { TracedAuthenticationCaches }
    ensures session { TracedSessionCaches }
    ensures credentials { TracedCredentialsGrantedBy }
    ensures closing { TracedClosingGrantedBy }
{}

/// So it is of a call that returned INCOMPLETE and is resumed, by the lines of its earlier calls
/// and those that it added to the trace; also of a change of token that is resumed in its second
/// pass.
pub fn resumed_calls_succeed_by_listed_ways()
    ensures pass { ResumedCallsGrantedBy }
    ensures change { ResumedChangesGrantedBy }
    ensures left { LeftInUpdateByTrace }
    ensures update { ResumedUpdatesGrantedBy }
{}
