ghost use Rattle.frame_stream.specs.Laws.{AllAreLookedAt, BytesSpell, RunIsOfSteps, ServedAreSteps, StepsAreLookedAt};

use crate::frames::CallStepping;

// Each of these is a law about the definitions: its contract states it.

/// If some bytes are the frames of steps and a rest after them, these frames are read first, and
/// then the rest.
pub fn steps_are_looked_at()
    ensures { StepsAreLookedAt }
{
    pam_wire::laws::first_frame_settles();
    pam_wire::laws::frame_is_read();
}

/// When the input ends, all its bytes are read, in order.
pub fn all_are_looked_at()
    ensures { AllAreLookedAt }
{
    pam_wire::laws::first_frame_settles();
}

/// Some bytes are the frames of steps, at most 65,536, and a rest, which is the beginning of a
/// frame or is refused.
pub fn bytes_spell_steps()
    ensures { BytesSpell }
{
    pam_wire::laws::first_frame_settles();
    pam_wire::laws::frame_is_read();
    pam_wire::laws::frame_opens_by_the_table();
}

/// A run over some bytes is one over the steps that they spell: its text is their answers, one
/// after the other. If it stops, what was written is the answers of the first steps.
pub fn runs_are_of_steps<R: CallStepping>()
    ensures run { (setting : R.Setting) → RunIsOfSteps (R.answers setting) }
    ensures served { (setting : R.Setting) → ServedAreSteps (R.answers setting) }
{
    pam_wire::laws::first_frame_settles();
    pam_wire::laws::frame_is_read();
    pam_wire::laws::frame_opens_by_the_table();
}
