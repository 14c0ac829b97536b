ghost use Rattle.laws_explain.specs.Rows.{EachRuleHasOneRow};
ghost use Rattle.laws_explain.specs.Codes.{CallsEndWithTheirCode, FittingCallsEndWithTheirCode, RunsEndWithTheirCode};

// Each of these is a law about the definitions: its contract states it.

/// What is shown of a run of a stack has one row for each of its rules, those of substacks
/// included, in the order of their rule numbers, with the path of its module. So it is for each
/// kind of run, whatever codes are cached, and whatever is recorded.
pub fn each_rule_has_one_row()
    ensures { EachRuleHasOneRow }
{}

/// The last line that is shown of a run has the return code of the run (`runs`), and that of a call
/// the code that the replay of the call returns (`calls`). In a report that fits the stacks it is
/// the code of the report (`fitting`), except of a change of token whose flags were refused: there
/// it is said that no rule was run.
pub fn last_line_has_the_code()
    ensures runs { RunsEndWithTheirCode }
    ensures calls { CallsEndWithTheirCode }
    ensures fitting { FittingCallsEndWithTheirCode }
{}
