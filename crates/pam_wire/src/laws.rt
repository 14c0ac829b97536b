ghost use Rattle.pam_wire.specs.Laws.{ReadsTable, HasOneFrame, IsOneStep, BeginsNoOther, HasOneReading, FirstFrameSettles, OpensByTable};

// Each of these is a law about the definitions: its contract states it, for those who call it in a
// proof.

/// Bytes are read as a step if and only if they are its frame by the table.
pub fn frame_is_read()
    ensures { ReadsTable }
{}

/// No step has two frames, and no bytes are the frames of two steps.
pub fn frame_of_a_step_is_one()
    ensures one_frame { HasOneFrame }
    ensures one_step { IsOneStep }
{}

/// No frame is the beginning of another.
pub fn no_frame_begins_another()
    ensures { BeginsNoOther }
{}

/// The steps that are read from some bytes, and what is left after them, depend on the bytes alone,
/// and not on how they were cut into pieces.
pub fn steps_are_those_of_the_bytes()
    ensures { HasOneReading }
{}

/// What some bytes begin with stays the same, whatever follows them.
pub fn first_frame_settles()
    ensures { FirstFrameSettles }
{}

/// What is read as the beginning of a frame is one by the table, and nothing else is.
pub fn frame_opens_by_the_table()
    ensures { OpensByTable }
{}
