ghost use Rattle.std.specs.Prelude.{◌≡◌, ◌<◌, ◌≤◌, ◌^◌, ◌+◌, ◌++◌, ◌∷◌, [], length, map, Some, None, Ok, IfOk, IfSome, OnErr, IsTrue};
ghost use Rattle.data_cleanup.specs.Sets.{Sets};
ghost use Rattle.pam_room.specs.State.{scene_in};
ghost use Rattle.pam_room.specs.Stays.{AreReady, BothStay, LineStays};
ghost use Rattle.pam_room.specs.Module.{BreaksIn, PlaysIn, player_of};
ghost use Rattle.pam_room.specs.Serve.{ServesLine, answer_or_incomplete, visited};
ghost use Rattle.pam_room.specs.Plain.{plain_call};

use crate::both::{Both, Told};
use crate::call::Call;
use crate::module::Module;
use crate::room::{Room, RoomTold};
use crate::sweep::sweep;
use crate::visits::Visit;
use crate::world::{World, WorldTold};
use data_cleanup::laws;
use pam_base::{Code, NoMemory, SharedText};
use pam_outside::current_moment;
use std::alloc::Global;

/// A line of a stack that is run.
#[derive(Debug, Drop)]
pub struct StackLine {
    /// Its number among the stack's lines, from 1.
    pub place: u32,
    /// The path of its module.
    pub path: SharedText,
    /// The number of its module, from 0; None if the module doesn't exist.
    pub module_number: Option<u32>,
}

/// Runs one line of a stack: its module serves the call, all data that it replaced are cleaned up
/// by their owners with `DATA_REPLACE`, and the line run is added to the trace. A line whose module
/// doesn't exist returns MODULE_UNKNOWN and changes nothing else. If the module's conversation
/// asked to be called again later, INCOMPLETE is returned, whatever the module returned.
///
/// With spare room in the trace it does not allocate itself. If an allocation of the module fails,
/// the line isn't recorded as run, but replaced data are cleaned up, and the transaction still
/// names this module as the one at work; what modules see of the transaction and the files is what
/// the module may then leave.
pub fn serve_line(
    alloc: Global,
    mods: &[Box<dyn Module>],
    line: StackLine,
    call: &Call,
    room: &mut Room,
    world: &mut World,
) -> Result<Code, NoMemory>
    requires there { IfSome line.module_number (λ number. number < length mods.now) }
    requires few { length mods.now < 2 ^ 32 }
    requires spare { 0 < room.old.transaction.trail.spare }
    requires ready { AreReady (length mods.now) room.old world.old }
    ensures stays { LineStays (map (player_of label plays note breaks) mods.now) (length mods.now)
        ⟦<Room as RoomTold>⟧.tells ⟦<World as WorldTold>⟧.tells
        room.old room.new world.old world.new }
    ensures done { let seen = ⟦<Both as Told>⟧.seen in ServesLine result
        (map (player_of label plays note breaks) mods.now) line.module_number (plain_call call.now)
        (visited line.place line.path) (seen room.old world.old) (seen room.new world.new) }
    ensures unknown { line.module_number ≡ None →
        (result ≡ Ok Code.ModuleUnknown) × (world.new ≡ world.old) × (room.new.conv ≡ room.old.conv)
        × (room.new.transaction
        ≡ record room.old.transaction { trail = room.new.transaction.trail }) }
    ensures visited { IfOk result (λ code. room.new.transaction.trail.visits
        ≡ room.old.transaction.trail.visits
        ++ record { place = line.place; path = line.path; answer = code } ∷ []) }
    ensures not_visited { OnErr result (room.new.transaction.trail.visits
        ≡ room.old.transaction.trail.visits) }
    ensures at_work { OnErr result (line.module_number ≡ Some room.new.transaction.serving) }
    ensures spare { room.old.transaction.trail.spare ≤ room.new.transaction.trail.spare + 1 }
{
    laws::nothing_grows();
    let answer = match line.module_number {
        None => Code::ModuleUnknown,
        Some(number) => serve_by(alloc, mods, number, call, room, world)?,
    };
    let visit = Visit {
        place: line.place,
        path: line.path,
        answer,
    };
    room.transaction.trail.push(visit).unwrap();
    Ok(answer)
}

// The module with this number serves, and the data that it replaced are cleaned up.
fn serve_by(
    alloc: Global,
    mods: &[Box<dyn Module>],
    number: u32,
    call: &Call,
    room: &mut Room,
    world: &mut World,
) -> Result<Code, NoMemory>
    requires there { number < length mods.now }
    requires ready { AreReady (length mods.now) room.old world.old }
    ensures stays { LineStays (map (player_of label plays note breaks) mods.now) (length mods.now)
        ⟦<Room as RoomTold>⟧.tells ⟦<World as WorldTold>⟧.tells
        room.old room.new world.old world.new }
    ensures done { let seen = ⟦<Both as Told>⟧.seen in ServesLine result
        (map (player_of label plays note breaks) mods.now) (Some number) (plain_call call.now)
        (λ a. a) (seen room.old world.old) (seen room.new world.new) }
    ensures serving { room.new.transaction.serving ≡ number }
    ensures trail { room.new.transaction.trail.visits ≡ room.old.transaction.trail.visits }
    ensures spare { room.old.transaction.trail.spare ≤ room.new.transaction.trail.spare }
{
    room.transaction.put_off = false;
    room.transaction.serving = number;
    laws::ledger_is_sound(&world.process.ledger);
    let answer = play(&mods[number as usize], alloc, call, room, world);
    laws::ledger_is_sound(&world.process.ledger);
    laws::set_data_await_cleanup();
    laws::swept_setting_grows();
    sweep(
        mods,
        &mut room.transaction.datums,
        &mut world.process.ledger,
    );
    let code = answer?;
    Ok(code_or_incomplete(room.transaction.put_off, code))
}

// The code of a line that was run, from what its module did.
fn code_or_incomplete(put_off: bool, code: Code) -> Code
    ensures { result ≡ answer_or_incomplete put_off code }
{
    if put_off { Code::Incomplete } else { code }
}

// A module serves; it gets parts of the room and of the world.
fn play(
    handler: &Box<dyn Module>,
    alloc: Global,
    call: &Call,
    room: &mut Room,
    world: &mut World,
) -> Result<Code, NoMemory>
    requires { room.old.transaction.datums.handle ≡ room.old.transaction.handle }
    ensures room_tells { ⟦<Room as RoomTold>⟧.tells room.new ≡ ⟦<Room as RoomTold>⟧.tells room.old }
    ensures world_tells { ⟦<World as WorldTold>⟧.tells world.new
        ≡ ⟦<World as WorldTold>⟧.tells world.old }
    ensures told { let seen = ⟦<Both as Told>⟧.seen in IsTrue (seen room.old world.old).lent_tells →
        IfOk result (λ code. PlaysIn (plays handler.now) (plain_call call.now)
        (scene_in (seen room.old world.old).state) code
        (scene_in (seen room.new world.new).state)) }
    ensures broken { let seen = ⟦<Both as Told>⟧.seen in
        IsTrue (seen room.old world.old).lent_tells →
        OnErr result (BreaksIn (breaks handler.now) (plain_call call.now)
        (scene_in (seen room.old world.old).state) (scene_in (seen room.new world.new).state)) }
    ensures nap { world.new.nap ≡ world.old.nap }
    ensures stays { BothStay room.old room.new world.old world.new }
    ensures serving { room.new.transaction.serving ≡ room.old.transaction.serving }
    ensures trail { room.new.transaction.trail.visits ≡ room.old.transaction.trail.visits }
    ensures spare { room.old.transaction.trail.spare ≤ room.new.transaction.trail.spare }
    ensures sets { Sets room.old.transaction.serving room.old.transaction.datums
        world.old.process.ledger room.new.transaction.datums world.new.process.ledger }
{
    let moment = current_moment(&world.clock);
    handler.serve(
        alloc,
        call,
        &mut room.transaction,
        &mut world.process,
        &mut *room.conv,
        &mut *world.vault,
        moment,
        &mut *world.clock,
    )
}
