ghost use Rattle.frame_stream.specs.Laws.{RunIsOfSteps};
ghost use Rattle.cmd_wire.specs.Reading.{call_read};

use crate::frames::Refusing;

/// Which frames of some bytes are read depends on the steps that the bytes spell.
pub(crate) fn reading_is_of_steps()
    ensures { RunIsOfSteps call_read }
{
    frame_stream::laws::runs_are_of_steps::<Refusing>();
}
