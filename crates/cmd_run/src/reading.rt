ghost use Rattle.cmd_run.specs.Reading.{ReadingIsTurns};

use crate::protocol::{Protocol, Reading};
use record_reader::laws;

/// The laws on turns, for a stream of which only the source is modelled.
pub(crate) fn reading_is_turns<P: Protocol>()
    ensures { ReadingIsTurns P.looked P.refuses P.read_step }
{
    laws::first_turn::<Reading<P>>();
    laws::nothing_found_is_a_turn::<Reading<P>>();
    laws::found_item_is_a_turn::<Reading<P>>();
    laws::turns_go_on::<Reading<P>>();
    laws::turns_are_a_run::<Reading<P>>();
}
