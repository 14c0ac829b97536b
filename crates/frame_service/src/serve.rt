ghost use Rattle.std.specs.Prelude.{◌≡◌, ◌≤◌, ◌<◌, ◌^◌, ℕ, [], IfOk, length};
ghost use Rattle.pam_base.specs.declared.code.Code.{Code};
ghost use Rattle.fail_delay.specs.DelayFn.{GivesOneNumber};
ghost use Rattle.cmd_all.specs.ByCommand.{object_of};
ghost use Rattle.cmd_all.specs.Command.{command_of};
ghost use Rattle.frame_service.specs.Service.{IsOfFrames, StatusOf, served_wait};
ghost use Rattle.frame_service.specs.Serving.{ServesFrames};

use crate::conversations::{Conversations, ConversationsTold};
use crate::wait::{returns_served_wait, served_wait};
use cmd_all::{Desk, DeskTold, Outside, OutsideTold, pamsess};
use fail_delay::{DelayRule, LONGEST_ASKED};
use pam_base::Code;
use pam_outside::{Sink, Source};
use pam_room::World;
use shipped_modules::shipped_modules;
use std::alloc::Global;
use std::io;

/// Serves the calls of a front end with the shipped modules, with these conversations and with the waits of
/// `served_wait`. `words` are `wire ROOT`, or none; then only the usage line is written. It returns the exit status: 0 at
/// the end of the input, 4 out of memory, 5 and 6 if input or output failed, 13 at a bad frame, 14 at one frame too many;
/// 2 without a command, or 6 if the usage line couldn't be written.
pub fn serve_frames<S: Source, K: Sink>(
    alloc: Global,
    words: &[String],
    talks: Conversations,
    script: &mut S,
    out: &mut K,
    world: &mut World,
) -> io::Result<u8>
    requires frames { IsOfFrames (command_of words.now) }
    requires sixteen { length talks.convs.items ≡ 16 }
    requires no_births { world.old.process.ledger.births ≡ [] }
    requires no_receipts { world.old.process.ledger.filed ≡ [] }
    ensures status { IfOk result (λ status. StatusOf (command_of words.now) status) }
    ensures served { IfOk result (λ status. ServesFrames (command_of words.now) status
        (⟦<Conversations as ConversationsTold>⟧.setup talks)
        (⟦<Outside as OutsideTold>⟧.around world.old world.new)
        (object_of S.source_tells S.source_holds S.source_faults script.old script.new)
        (object_of K.sink_tells K.sink_holds K.sink_faults out.old out.new)) }
{
    let mods = shipped_modules!(alloc);
    let delay = |code: Code, asked: u32| -> u32
        ensures { result ≡ served_wait code asked }
    { served_wait(code, asked) };
    let delay: DelayRule = Box::new(alloc, delay)?;
    returns_served_wait(&delay);
    let Conversations { convs, term, time } = talks;
    let desk = Desk {
        mods,
        convs,
        term,
        delay,
        time,
    };
    Ok(answer_frames(alloc, words, script, out, world, desk))
}

// `pamsess` over frames, whatever the objects are.
fn answer_frames<S: Source, K: Sink>(
    alloc: Global,
    words: &[String],
    script: &mut S,
    out: &mut K,
    world: &mut World,
    desk: Desk,
) -> u8
    requires frames { IsOfFrames (command_of words.now) }
    requires sixteen { length desk.convs.items ≡ 16 }
    requires few { length desk.mods.items < 2 ^ 32 }
    requires callable { (code : Code) (asked : ℕ) → asked ≤ LONGEST_ASKED →
        ⟦<DelayRule as Fn(Code, u32) -> u32>⟧.pre desk.delay code asked }
    requires one_number { GivesOneNumber
        (⟦<DelayRule as Fn(Code, u32) -> u32>⟧.post desk.delay) }
    requires no_births { world.old.process.ledger.births ≡ [] }
    requires no_receipts { world.old.process.ledger.filed ≡ [] }
    ensures status { StatusOf (command_of words.now) result }
    ensures served { ServesFrames (command_of words.now) result (⟦<Desk as DeskTold>⟧.given desk)
        (⟦<Outside as OutsideTold>⟧.around world.old world.new)
        (object_of S.source_tells S.source_holds S.source_faults script.old script.new)
        (object_of K.sink_tells K.sink_holds K.sink_faults out.old out.new) }
{
    pamsess(alloc, words, script, out, world, desk)
}
