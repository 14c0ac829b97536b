ghost use Rattle.std.specs.Prelude.{◌≡◌, ◌≤◌, ◌<◌, ◌+◌, ◌++◌, ℕ, None, Ok, IsTrue, All, is_err};
ghost use Rattle.pam_base.specs.declared.code.Code.{Code};
ghost use Rattle.pam_outside.specs.Counts.{RisesIf};
ghost use Rattle.record_reader.specs.Object.{object_of};
ghost use Rattle.record_reader.specs.Taking.{Finds, IsFound};
ghost use Rattle.report_step.specs.dispatch_core.specs.Lines.{names_of};
ghost use Rattle.record_reader.specs.Turns.{has_read_fault, has_write_fault, place};
ghost use Rattle.cmd_run.specs.Asked.{IsEndAmong, LeadsOn};
ghost use Rattle.cmd_run.specs.Events.{TellsTurn};
ghost use Rattle.cmd_run.specs.Made.{ReportsCalls};
ghost use Rattle.cmd_run.specs.Reading.{ReadsTurn, WritesSome};
ghost use Rattle.cmd_run.specs.Run.{ServesStream};
ghost use Rattle.cmd_run.specs.Seen.{AllTell, IsSoundIn, Went, setting_at, state};

use crate::protocol::{Items, Protocol};
use crate::reading::reading_is_turns;
use crate::serve::serve;
use crate::time::{TimeOfDay, TimeTold};
use pam_base::{Failed, NoMemory};
use pam_outside::{Sink, Source};
use record_reader::{Ending, NextItem, Reader, Stop, laws};
use report_step::pam_library::{Library, Session, Told};
use report_step::pam_room::World;
use std::alloc::Global;

/// Applies the items of a stream one by one until they end or one is refused, and counts those that were applied.
pub(crate) fn serve_items<P: Protocol, S: Source, K: Sink>(
    alloc: Global,
    library: &mut Library,
    taken: &mut u32,
    time: &Option<Box<dyn TimeOfDay>>,
    source: &mut S,
    sink: &mut K,
    world: &mut World,
) -> Result<Ending<P::Kind>, Stop>
    requires first { taken.old ≡ 0 }
    requires sound { IsSoundIn (⟦<Session as Told>⟧.seen library.old world.old) }
    ensures serves { let seen = ⟦<Session as Told>⟧.seen in
        let timing = ⟦<Option<Box<dyn TimeOfDay>> as TimeTold>⟧.timing in
        ServesStream P.looked P.asked P.step P.fails P.read_step (timing time.now) result
        taken.new (seen library.old world.old) (seen library.new world.new)
        (object_of S.source_tells S.source_holds S.source_faults source.old source.new)
        (object_of K.sink_tells K.sink_holds K.sink_faults sink.old sink.new) }
    ensures made { let seen = ⟦<Session as Told>⟧.seen in IsTrue (K.sink_tells sink.old) →
        ReportsCalls P.wrapped (names_of (seen library.old world.old).players) result
        (seen library.old world.old).slots (seen library.new world.new).slots
        (K.sink_holds sink.old) (K.sink_holds sink.new) }
{
    laws::first_turn::<Items<P>>();
    laws::turns_go_on::<Items<P>>();
    laws::turns_are_a_run::<Items<P>>();
    reading_is_turns::<P>();
    let mut reader = match Reader::new(alloc) {
        Ok(reader) => reader,
        Err(NoMemory) => return Err(Stop::NoMemory),
    };
    loop {
        match serve_next::<P, S, K>(
            alloc,
            library,
            taken,
            &mut reader,
            time,
            source,
            sink,
            world,
        ) {
            Ok(None) => {}
            Ok(Some(ending)) => return Ok(ending),
            Err(stop) => return Err(stop),
        }
    }
}

// Reads one item and applies it. None if there may be more.
fn serve_next<P: Protocol, S: Source, K: Sink>(
    alloc: Global,
    library: &mut Library,
    taken: &mut u32,
    reader: &mut Reader,
    time: &Option<Box<dyn TimeOfDay>>,
    source: &mut S,
    sink: &mut K,
    world: &mut World,
) -> Result<Option<Ending<P::Kind>>, Stop>
    requires few { taken.old ≤ 65536 }
    requires sound { IsSoundIn (⟦<Session as Told>⟧.seen library.old world.old) }
    ensures source_tells { S.source_tells source.new ≡ S.source_tells source.old }
    ensures sink_tells { K.sink_tells sink.new ≡ K.sink_tells sink.old }
    ensures told { let seen = ⟦<Session as Told>⟧.seen in
        let timing = ⟦<Option<Box<dyn TimeOfDay>> as TimeTold>⟧.timing time.now in
        IsTrue timing.tells → (delay : Code → ℕ → ℕ) → (seen library.old world.old).gives delay →
        AllTell (seen library.old world.old) → IsTrue (S.source_tells source.old) → IsTrue (K.sink_tells sink.old) →
        TellsTurn P.looked P.asked P.step P.fails
        (setting_at timing.moments (seen library.old world.old) delay) result
        (place taken.old (state (seen library.old world.old)) reader.old
        (S.source_holds source.old) (K.sink_holds sink.old))
        (place taken.new (state (seen library.new world.new)) reader.new
        (S.source_holds source.new) (K.sink_holds sink.new)) }
    ensures reads { IsTrue (S.source_tells source.old) →
        ReadsTurn P.looked P.read_step result taken.old taken.new reader.old reader.new
        (S.source_holds source.old) (S.source_holds source.new) }
    ensures writes { IsTrue (K.sink_tells sink.old) →
        WritesSome result (K.sink_holds sink.old) (K.sink_holds sink.new) }
    ensures made { let seen = ⟦<Session as Told>⟧.seen in IsTrue (K.sink_tells sink.old) →
        ReportsCalls P.wrapped (names_of (seen library.old world.old).players) result
        (seen library.old world.old).slots (seen library.new world.new).slots
        (K.sink_holds sink.old) (K.sink_holds sink.new) }
    ensures few { taken.new ≤ 65536 }
    ensures next { result ≡ Ok None → taken.new ≡ taken.old + 1 }
    ensures leads { result ≡ Ok None → IsTrue (S.source_tells source.old) →
        LeadsOn P.looked P.asked taken.old (reader.old ++ (S.source_holds source.old).left) taken.new
        (reader.new ++ (S.source_holds source.new).left) }
    ensures went { let seen = ⟦<Session as Told>⟧.seen in Went (IsEndAmong P.looked P.asked
        (S.source_tells source.old) taken.old (reader.old ++ (S.source_holds source.old).left))
        (seen library.old world.old) (seen library.new world.new) }
    ensures source_faults { RisesIf (has_read_fault result) (S.source_faults source.old)
        (S.source_faults source.new) }
    ensures sink_faults { RisesIf (has_write_fault result) (K.sink_faults sink.old)
        (K.sink_faults sink.new) }
{
    laws::nothing_found_is_a_turn::<Items<P>>();
    laws::found_item_is_a_turn::<Items<P>>();
    P::keeps();
    P::does();
    reading_is_turns::<P>();
    let before = *taken;
    match find_item::<P, S>(reader, source, before) {
        Err(Failed) => Ok(Some(Ending::ReadFault)),
        Ok(NextItem::End) => Ok(Some(Ending::Done)),
        Ok(NextItem::Item { length, size }) => {
            match serve::<P, K>(
                alloc,
                library,
                before,
                &reader.bytes()[..length],
                time,
                sink,
                world,
            ) {
                Err(stop) => Err(stop),
                Ok(Some(kind)) => Ok(Some(Ending::Refused(kind))),
                Ok(None) => {
                    reader.skip(size);
                    *taken = before + 1;
                    Ok(None)
                }
            }
        }
        Ok(NextItem::Rest) => match serve::<P, K>(
            alloc,
            library,
            before,
            reader.bytes(),
            time,
            sink,
            world,
        ) {
            Err(stop) => Err(stop),
            Ok(Some(kind)) => Ok(Some(Ending::Refused(kind))),
            Ok(None) => {
                *taken = before + 1;
                Ok(Some(Ending::Done))
            }
        },
    }
}

// Reads until an item is complete, or the bytes that are held are refused.
fn find_item<P: Protocol, S: Source>(
    reader: &mut Reader,
    source: &mut S,
    before: u32,
) -> Result<NextItem, Failed>
    ensures found { IsFound P.looked result before reader.new }
    ensures bytes { All (λ b. b < 256) reader.new }
    ensures tells { S.source_tells source.new ≡ S.source_tells source.old }
    ensures told { IsTrue (S.source_tells source.old) →
        Finds P.looked P.refuses result before reader.old reader.new
        (S.source_holds source.old) (S.source_holds source.new) }
    ensures faults { RisesIf (is_err result) (S.source_faults source.old)
        (S.source_faults source.new) }
{
    let found = reader.find::<Items<P>, S>(source, before);
    are_bytes(reader.bytes());
    found
}

// The elements of a slice of bytes are bytes: a law.
fn are_bytes(held: &[u8])
    ensures { All (λ b. b < 256) held.now }
{}
