ghost use Rattle.std.specs.Prelude.{◌≡◌, ◌≤◌, [], None, IfOk, OnOk};
ghost use Rattle.control_words.specs.Stack.{lines_in};
ghost use Rattle.dispatch_core.specs.AnswersSoFar.{past_of};
ghost use Rattle.dispatch_core.specs.Passes.{first_cells};
ghost use Rattle.dispatch_core.specs.Paths.{HasPaths};

use crate::answers_so_far::AnswersSoFar;
use crate::paths::Paths;
use frozen_chain::{Kept, Paused};
use handler_chain::{Chain, PassKind};
use pam_base::NoMemory;
use pam_room::{Room, RoomTold};
use std::alloc::Global;

/// Memory that a pass uses up, allocated before, so that it does not allocate between two modules.
#[derive(Drop)]
pub struct PassMemory {
    pub answers: AnswersSoFar,
    pub paths: Paths,
}

impl PassMemory {
    /// Allocates everything for a pass: also the cells for codes that it caches, and spare room in
    /// the trace. After it no pass is incomplete, even if an allocation fails.
    pub fn take(
        alloc: Global,
        chain: &Chain,
        kind: PassKind,
        keeps: &mut Kept,
        paused: &mut Paused,
        room: &mut Room,
    ) -> Result<Self, NoMemory>
        requires { keeps.old ≡ None }
        ensures past { IfOk result (λ memory. memory.answers.past ≡ past_of paused.old) }
        ensures taken { IfOk result (λ memory. memory.answers.taken ≡ []) }
        ensures answers { IfOk result (λ memory. lines_in chain.now.nodes ≤ memory.answers.room) }
        ensures paths { IfOk result (λ memory. HasPaths chain.now.nodes 0 memory.paths) }
        ensures spare { OnOk result (lines_in chain.now.nodes ≤ room.new.transaction.trail.spare) }
        ensures cells { OnOk result (keeps.new ≡ first_cells kind (lines_in chain.now.nodes)) }
        ensures none { paused.new ≡ None }
        ensures room { let plain_room = ⟦<Room as RoomTold>⟧.plain in
            plain_room room.new ≡ plain_room room.old }
        ensures tells { let tells = ⟦<Room as RoomTold>⟧.tells in
            tells room.new ≡ tells room.old }
        ensures conv { room.new.conv ≡ room.old.conv }
    {
        let answers = AnswersSoFar::resume(alloc, paused, chain.len())?;
        let paths = Paths::of(alloc, chain)?;
        reserve_visits(room, chain.len())?;
        open_cells(alloc, kind, chain.len(), keeps)?;
        Ok(PassMemory { answers, paths })
    }
}

fn reserve_visits(room: &mut Room, lines: usize) -> Result<(), NoMemory>
    ensures spare { OnOk result (lines ≤ room.new.transaction.trail.spare) }
    ensures room { let plain_room = ⟦<Room as RoomTold>⟧.plain in
        plain_room room.new ≡ plain_room room.old }
    ensures tells { let tells = ⟦<Room as RoomTold>⟧.tells in
        tells room.new ≡ tells room.old }
    ensures conv { room.new.conv ≡ room.old.conv }
{
    room.transaction.trail.reserve(lines)
}

fn open_cells(alloc: Global, kind: PassKind, lines: usize, keeps: &mut Kept) -> Result<(), NoMemory>
    requires { keeps.old ≡ None }
    ensures { OnOk result (keeps.new ≡ first_cells kind lines) }
{
    match kind {
        PassKind::Keep => keeps.open(alloc, lines),
        PassKind::Follow | PassKind::Loose => Ok(()),
    }
}
