ghost use Rattle.std.specs.Prelude.{◌≡◌, ◌<◌, ◌≤◌, [], None, Some, true, false, is_some, length, map, IfOk, OnErr, IsNone, IsTrue, is_ok};
ghost use Rattle.control_words.specs.Stack.{lines_in};
ghost use Rattle.frozen_chain.specs.Kept.{empty_cells};
ghost use Rattle.pam_room.specs.Stays.{AreReady};
ghost use Rattle.pam_room.specs.Module.{player_of};
ghost use Rattle.dispatch_core.specs.AnyWorld.{PassStays};
ghost use Rattle.dispatch_core.specs.Done.{ChainStays, IsUntouchedOrStops, PassDone, PassStops};
ghost use Rattle.dispatch_core.specs.AnswersSoFar.{past_of};
ghost use Rattle.dispatch_core.specs.Paths.{HasPaths};
ghost use Rattle.dispatch_core.specs.Passes.{LeavesAs, WalksAs, by_place, code_by, cells_after, kept_failed, paused_by};

use crate::answers_so_far::AnswersSoFar;
use crate::around::{Pass, PassTold};
use crate::laws;
use crate::pass_memory::PassMemory;
use crate::request::PassRequest;
use crate::turn::{act_on, next_answer};
use crate::walker::Walker;
use frozen_chain::{Kept, Paused};
use handler_chain::{Chain, PassKind};
use pam_base::{Code, NoMemory};
use pam_room::{Module, Room, World};
use std::alloc::Global;

// Walks a stack from its first line (the loop of libpam's `_pam_dispatch_aux`). Returns its code,
// or None if the walk is incomplete.
fn walk(
    alloc: Global,
    chain: &mut Chain,
    mods: &[Box<dyn Module>],
    request: PassRequest,
    follows: &Kept,
    keeps: &mut Kept,
    memory: &mut PassMemory,
    room: &mut Room,
    world: &mut World,
) -> Result<Option<Code>, NoMemory>
    requires names { chain.old.names ≡ map label mods.now }
    requires taken { memory.old.answers.taken ≡ [] }
    requires answers { lines_in chain.old.nodes ≤ memory.old.answers.room }
    requires paths { HasPaths chain.old.nodes 0 memory.old.paths }
    requires spare { lines_in chain.old.nodes ≤ room.old.transaction.trail.spare }
    requires cells { is_some keeps.old ≡ true →
        keeps.old ≡ Some (empty_cells (lines_in chain.old.nodes)) }
    requires ready { AreReady (length mods.now) room.old world.old }
    ensures stays { PassStays (length mods.now) (⟦<Pass as PassTold>⟧.around
        (map (player_of label plays note breaks) mods.now) room.old room.new world.old world.new) }
    ensures done { PassDone request chain.old.nodes (by_place follows.now) memory.old.answers.past
        (λ _ w end state. WalksAs w end keeps.new memory.new.answers state) result
        (⟦<Pass as PassTold>⟧.around (map (player_of label plays note breaks) mods.now)
        room.old room.new world.old world.new) }
    ensures flat { ChainStays chain.old chain.new memory.old.answers.past result
        (⟦<Pass as PassTold>⟧.around (map (player_of label plays note breaks) mods.now)
        room.old room.new world.old world.new) }
    ensures held { is_some keeps.new ≡ is_some keeps.old }
    ensures none { IfOk result (λ end. IsNone end → memory.new.answers.past ≡ []) }
    ensures stopped { OnErr result (PassStops request chain.old.nodes (by_place follows.now)
        memory.old.answers.past (⟦<Pass as PassTold>⟧.around
        (map (player_of label plays note breaks) mods.now) room.old room.new world.old world.new)) }
{
    pam_room::data_cleanup::laws::nothing_grows();
    laws::soundness_is_transitive();
    let mut walker = Walker::new();
    while walker.at < chain.len() {
        let i = walker.at;
        let Some(answer) = next_answer(alloc, chain, mods, request, i, memory, room, world)? else {
            return Ok(None);
        };
        act_on(chain, request.kind, follows, keeps, answer, &mut walker);
    }
    Ok(Some(walker.opinion.verdict()))
}

// What stays cached after a pass that has ended, or for which an allocation failed.
fn keep_answers(kind: PassKind, kept: &mut Kept, keeps: Kept, answered: bool)
    ensures kept { kept.new ≡ cells_after kind answered keeps kept.old }
    ensures failed { answered ≡ false → kept.new ≡ kept_failed kind kept.old }
{
    match kind {
        PassKind::Keep if answered => *kept = keeps,
        PassKind::Keep => kept.drop_all(),
        PassKind::Loose if answered => kept.drop_all(),
        PassKind::Follow | PassKind::Loose => {}
    }
}

// What is cached after the walk of a pass, the codes to resume it with, and its code.
fn end_pass(
    kind: PassKind,
    kept: &mut Kept,
    keeps: Kept,
    paused: &mut Paused,
    answers: AnswersSoFar,
    ended: Result<Option<Code>, NoMemory>,
) -> Result<Code, NoMemory>
    requires paused { paused.old ≡ None }
    requires past { IfOk ended (λ end. IsNone end → answers.past ≡ []) }
    ensures code { result ≡ code_by ended }
    ensures kept { kept.new ≡ cells_after kind (is_ok ended) keeps kept.old }
    ensures paused { paused.new ≡ paused_by ended answers.taken }
    ensures failed { OnErr result (kept.new ≡ kept_failed kind kept.old) }
    ensures none { OnErr result (paused.new ≡ None) }
    ensures put_off { IfOk result (λ code. IsTrue (is_some paused.new) → code ≡ Code.Incomplete) }
{
    keep_answers(kind, kept, keeps, ended.is_ok());
    match ended? {
        Some(code) => Ok(code),
        None => {
            *paused = answers.pause();
            Ok(Code::Incomplete)
        }
    }
}

/// One pass over a stack (`pam.conf(5)`; libpam: `_pam_dispatch` and `_pam_dispatch_aux`): the
/// module of each line on its way serves the call, and the line run is added to the trace. A run by
/// cached codes acts by these; an incomplete pass is resumed after the lines that it ran. The code
/// is INCOMPLETE if a line is; then the codes of the pass are kept to resume it with, and after any
/// other code none are. After a first run its codes are cached, and after a run by cached codes
/// these still are; a run without cached codes leaves none.
///
/// It allocates everything that it needs itself before the first module serves. `NoMemory`
/// therefore means one of two things: either nothing happened, or the pass stopped in a module that
/// ran out of memory; with modelled objects, the state is then one that this module's `breaks`
/// allows. After it a first run has nothing cached, any other leaves what was cached; no pass is
/// incomplete, and all replaced data have been cleaned up.
pub fn dispatch(
    alloc: Global,
    chain: &mut Chain,
    mods: &[Box<dyn Module>],
    request: PassRequest,
    kept: &mut Kept,
    paused: &mut Paused,
    room: &mut Room,
    world: &mut World,
) -> Result<Code, NoMemory>
    requires names { chain.old.names ≡ map label mods.now }
    requires ready { AreReady (length mods.now) room.old world.old }
    ensures stays { PassStays (length mods.now) (⟦<Pass as PassTold>⟧.around
        (map (player_of label plays note breaks) mods.now) room.old room.new world.old world.new) }
    ensures done { PassDone request chain.old.nodes (by_place kept.old) (past_of paused.old)
        (λ _ w code state. LeavesAs request.kind w kept.old code kept.new paused.new state) result
        (⟦<Pass as PassTold>⟧.around (map (player_of label plays note breaks) mods.now)
        room.old room.new world.old world.new) }
    ensures flat { ChainStays chain.old chain.new (past_of paused.old) result
        (⟦<Pass as PassTold>⟧.around (map (player_of label plays note breaks) mods.now)
        room.old room.new world.old world.new) }
    ensures kept { OnErr result (kept.new ≡ kept_failed request.kind kept.old) }
    ensures paused { OnErr result (paused.new ≡ None) }
    ensures put_off { IfOk result (λ code. IsTrue (is_some paused.new) → code ≡ Code.Incomplete) }
    ensures stopped { OnErr result (IsUntouchedOrStops request chain.old.nodes (by_place kept.old)
        (past_of paused.old) (⟦<Pass as PassTold>⟧.around
        (map (player_of label plays note breaks) mods.now) room.old room.new world.old world.new)) }
{
    pam_room::data_cleanup::laws::nothing_grows();
    let mut keeps = Kept::none();
    let kind = request.kind;
    let Ok(mut memory) = PassMemory::take(alloc, chain, kind, &mut keeps, paused, room) else {
        keep_answers(kind, kept, keeps, false);
        return Err(NoMemory);
    };
    let ended = walk(
        alloc,
        chain,
        mods,
        request,
        kept,
        &mut keeps,
        &mut memory,
        room,
        world,
    );
    end_pass(kind, kept, keeps, paused, memory.answers, ended)
}
