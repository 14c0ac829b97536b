ghost use Rattle.std.specs.Prelude.{◌≡◌, ◌<◌, ◌≤◌, ◌+◌, [], is_some, true, length, map, IfOk, OnOk, IsTrue};
ghost use Rattle.control_words.specs.Stack.{lines_in};
ghost use Rattle.frozen_chain.specs.Kept.{kept_at, lines_kept};
ghost use Rattle.handler_chain.specs.FlatLines.{FlatLine};
ghost use Rattle.pam_room.specs.Stays.{AreReady};
ghost use Rattle.pam_room.specs.Module.{player_of};
ghost use Rattle.handler_chain.specs.Pass.{decides, is_incomplete};
ghost use Rattle.dispatch_core.specs.AnyWorld.{PassStays};
ghost use Rattle.dispatch_core.specs.Around.{all_tell};
ghost use Rattle.dispatch_core.specs.Done.{GivesLine, LineDone};
ghost use Rattle.dispatch_core.specs.Failing.{GoesBy};
ghost use Rattle.dispatch_core.specs.Index.{GoesOn, IsLineAt};
ghost use Rattle.dispatch_core.specs.Paths.{HasPaths};
ghost use Rattle.dispatch_core.specs.Passes.{by_place};

use crate::around::{Pass, PassTold};
use crate::line::take_line;
use crate::pass_memory::PassMemory;
use crate::request::PassRequest;
use crate::walker::Walker;
use frozen_chain::Kept;
use handler_chain::{Chain, PassKind};
use pam_base::{Code, NoMemory};
use pam_room::data_cleanup::laws;
use pam_room::{Call, Module, Room, World, serve_line};
use std::alloc::Global;

/// Whether a code leaves the pass incomplete.
pub fn puts_off(answer: Code) -> bool
    ensures incomplete { result ≡ is_incomplete answer }
    ensures is { result ≡ true → answer ≡ Code.Incomplete }
{
    answer == Code::Incomplete
}

/// The code that decides the action of line i.
pub fn decide(kind: PassKind, kept: &Kept, i: usize, answer: Code) -> Code
    ensures { result ≡ decides kind (by_place kept.now) (i + 1) answer }
{
    let kept_answer = kept.at(i).unwrap_or(answer);
    match kind {
        PassKind::Follow => kept_answer,
        PassKind::Keep | PassKind::Loose => answer,
    }
}

/// The next code of an earlier call, or if none is left that of line i, which is run: the module
/// that its path names serves the call. None if it leaves the pass incomplete. Only the module may
/// allocate.
pub fn next_answer(
    alloc: Global,
    chain: &Chain,
    mods: &[Box<dyn Module>],
    request: PassRequest,
    i: usize,
    memory: &mut PassMemory,
    room: &mut Room,
    world: &mut World,
) -> Result<Option<Code>, NoMemory>
    requires within { i < lines_in chain.now.nodes }
    requires names { chain.now.names ≡ map label mods.now }
    requires answers { memory.old.answers.past ≡ [] → 0 < memory.old.answers.room }
    requires paths { HasPaths chain.now.nodes i memory.old.paths }
    requires spare { 0 < room.old.transaction.trail.spare }
    requires ready { AreReady (length mods.now) room.old world.old }
    ensures stays { PassStays (length mods.now) (⟦<Pass as PassTold>⟧.around
        (map (player_of label plays note breaks) mods.now) room.old room.new world.old world.new) }
    ensures told { let a = ⟦<Pass as PassTold>⟧.around
        (map (player_of label plays note breaks) mods.now) room.old room.new world.old world.new in
        IsTrue (all_tell a.old) → IfOk result (λ answer. GivesLine request chain.now.nodes i answer
        memory.old.answers.past memory.new.answers.past a) }
    ensures line { LineDone request chain.now.nodes i result memory.old memory.new
        (⟦<Pass as PassTold>⟧.around (map (player_of label plays note breaks) mods.now)
        room.old room.new world.old world.new) }
    ensures spare { room.old.transaction.trail.spare ≤ room.new.transaction.trail.spare + 1 }
    ensures counted { OnOk result (length room.new.transaction.trail.visits + length
        memory.old.answers.past
        ≡ length room.old.transaction.trail.visits + length memory.new.answers.past + 1) }
{
    laws::nothing_grows();
    if let Some(answer) = memory.answers.next() {
        return Ok(Some(answer));
    }
    let line = take_line(chain, i, &mut memory.paths);
    let call = Call {
        func: request.func,
        flags: request.flags,
        args: chain.args(i),
    };
    let answer = serve_line(alloc, mods, line, &call, room, world)?;
    if puts_off(answer) {
        return Ok(None);
    }
    memory.answers.add(answer);
    Ok(Some(answer))
}

/// Caches the code of the walker's line, if codes are cached, and has the walker act on it.
pub fn act_on(
    chain: &mut Chain,
    kind: PassKind,
    follows: &Kept,
    keeps: &mut Kept,
    answer: Code,
    walker: &mut Walker,
)
    requires within { walker.old.at < lines_in chain.old.nodes }
    requires cells { is_some keeps.old ≡ true → walker.old.at < lines_kept keeps.old }
    ensures line { (line : FlatLine) → IsLineAt chain.old.nodes walker.old.at line →
        GoesOn kind line answer
        (decides kind (by_place follows.now) (walker.old.at + 1) answer) walker.old walker.new }
    ensures goes { GoesBy kind (by_place follows.now) chain.old.nodes answer walker.old
        walker.new }
    ensures ahead { walker.old.at < walker.new.at }
    ensures keeps { keeps.new ≡ kept_at keeps.old walker.old.at answer }
    ensures nodes { chain.new.nodes ≡ chain.old.nodes }
    ensures names { chain.new.names ≡ chain.old.names }
    ensures looks { chain.new.looks ≤ chain.old.looks + 4 }
{
    let i = walker.at;
    if keeps.held() {
        keeps.keep(i, answer);
    }
    let deciding = decide(kind, follows, i, answer);
    walker.go_on(chain, kind, answer, deciding);
}
