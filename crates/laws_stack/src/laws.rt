ghost use Rattle.laws_stack.specs.Counted.{CountedFailureDenies};
ghost use Rattle.laws_stack.specs.First.{FailingFirstLineEnds};
ghost use Rattle.laws_stack.specs.Success.{FailedLineDenies, FailedRequiredDenies, SuccessNeedsALine};

// Each of these is a law about the definitions: its contract states it. `S` is the state that the
// lines of a run change.

/// A run of a stack returns SUCCESS only if a line that it ran returned SUCCESS, and the control of
/// that line let it count.
pub fn success_needs_a_line<S>()
    ensures { SuccessNeedsALine S }
{}

/// After a line whose control has `bad` or `die` for the code by which it acted, a run doesn't
/// return SUCCESS, unless a later line's control has `reset` for its own; `required` says so of a
/// `required` or `requisite` line that failed.
pub fn failed_line_denies<S>()
    ensures line { FailedLineDenies S }
    ensures required { FailedRequiredDenies S }
{}

/// After a line that returned another code than SUCCESS and IGNORE, and whose action lets codes
/// count (`ok`, `done`, in other runs than first ones also a jump), a run doesn't return SUCCESS,
/// unless a later line's control has `reset`. In a run by cached codes the action is that of the
/// cached code: a line that succeeded in chauthtok's first pass has to succeed in the second, too.
pub fn counted_failure_denies<S>()
    ensures { CountedFailureDenies S }
{}

/// If a stack's first line is `requisite`, what it returns and the code by which it acts are
/// failures, and it isn't incomplete, the run returns its code, and no other line is run.
pub fn failing_first_line_ends<S>()
    ensures { FailingFirstLineEnds S }
{}
