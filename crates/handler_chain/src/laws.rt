ghost use Rattle.handler_chain.specs.PathLaw.{FindsKept, FollowsKeep, FollowsRoute, GoesOn, KeepsComplete, KeepsRoute};
ghost use Rattle.handler_chain.specs.Retell.{ResumesAsking, Retells};

// Each of these is a law about the definitions: its contract states it, for those who call it in a
// proof.

/// When a first run of a stack has ended, the return codes of its lines are complete for the stack,
/// and lead to the lines that it ran.
pub fn keeps_complete<S>()
    ensures complete { KeepsComplete S }
    ensures route { KeepsRoute S }
{}

/// A run by complete cached codes runs the lines that these lead to, in order, whatever the modules
/// return now: all of them if it has ended, a prefix of them if it is incomplete. So there is a
/// cached code for each line that it runs.
pub fn follows_route<S>()
    ensures route { FollowsRoute S }
    ensures found { FindsKept S }
{}

/// A run by the codes that a first run cached runs the same lines in the same order.
pub fn follows_keep<S>()
    ensures { FollowsKeep S }
{}

/// An incomplete run is resumed where it was: with the codes that it had as its past, it first has
/// the same lines with the same codes.
pub fn goes_on<S>()
    ensures { GoesOn S }
{}

/// A run that records its lines in a trace is the same as a run in which each line returns what the
/// trace has for it.
pub fn retells<S>()
    ensures { Retells S }
{}

/// Replaying just the return codes of an incomplete run ends at the line that left it incomplete.
pub fn resumes_asking<S>()
    ensures { ResumesAsking S }
{}
