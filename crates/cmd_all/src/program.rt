ghost use Rattle.std.specs.Prelude.{◌≡◌, ◌≤◌, ◌<◌, ◌^◌, ℕ, List, [], Option, None, Some, length};
ghost use Rattle.pam_base.specs.declared.code.Code.{Code};
ghost use Rattle.fail_delay.specs.DelayFn.{GivesOneNumber};
ghost use Rattle.pam_room.specs.Module.{notes_of};
ghost use Rattle.cmd_all.specs.ByCommand.{AuditsSo, ChecksSo, GeneratesSo, GoesBy, LogsInSo, ReadCauses, RunsSo, ShowsUsage, TalliesSo, WiresSo, WriteCauses, object_of};
ghost use Rattle.cmd_all.specs.CleanedUp.{IsCleanedUp, MayEnd};
ghost use Rattle.cmd_all.specs.Command.{audits, checks, command_of, generates, logs_in, runs, tallies, wires};

use crate::command::{Command, command_in};
use crate::desk::{Desk, DeskTold};
use crate::exit::{frames_exit, script_exit};
use crate::files::{audit_service, check_service, tally_user};
use crate::generation::generate_lines;
use crate::login::log_in;
use crate::outside::{Outside, OutsideTold};
use crate::stream::run_under;
use crate::usage::write_usage;
use cmd_run::Script;
use cmd_wire::Frames;
use fail_delay::{DelayRule, LONGEST_ASKED};
use pam_base::Code;
use pam_outside::{Sink, Source};
use pam_room::World;
use std::alloc::Global;

/// The program `pamsess`. `words` are the arguments of the command line, without the program's name:
///
/// - `run ROOT` reads the calls of a script, makes each in its transaction, of sixteen, with the configuration under
///   a root, and writes its report before it reads the next one; transactions that are open at the end are ended, the
///   lowest number first. It begins at the time 0 with the random word 0.
/// - `check ROOT SERVICE` prints the configuration of a service, or its first fault. Of the world it changes only the
///   counts of `Vault`.
/// - `login ROOT SERVICE [USER]` logs a user in at the terminal of `desk`, in the first transaction, and writes the
///   result of each call, and last whether the login was denied.
/// - `generate SEED LINES` generates a service of that many lines, authenticates with it, and writes the result.
/// - `tally ROOT USER` lists the failures of a user that `pam_faillock(8)` has recorded. Of the world it changes only
///   the counts of `Vault`. A USER that can't be a file's name is not a command.
/// - `audit ROOT SERVICE` writes whether a transcript, the report of a run, fits the stacks of a service, or which
///   line doesn't. Of the world it changes only the counts of `Vault`.
/// - `wire ROOT` does what `run` does for the frames of a front end, at most 65,536 calls, and writes an answer to
///   each before it reads the next one.
///
/// No argument may be empty or begin with `-`. The exit status is returned, that of an `Exit`.
///
/// Whatever it returns, every transaction that is open is ended before: with SUCCESS, BUF_ERR (4), SYSTEM_ERR (5 and
/// 6) or ABORT (7, 13 and 14).
///
/// With a time of day in `desk`, the world's clock is set to it before each call of `run`, `login` and `wire`. Otherwise it
/// changes only by what a script sets.
///
/// For each code and each requested delay of at most 90 seconds, the delay function must always return the same
/// number, at most 60 seconds.
pub fn pamsess<S: Source, K: Sink>(
    alloc: Global,
    words: &[String],
    script: &mut S,
    out: &mut K,
    world: &mut World,
    desk: Desk,
) -> u8
    requires sixteen { length desk.convs.items ≡ 16 }
    requires few { length desk.mods.items < 2 ^ 32 }
    requires callable { (code : Code) (asked : ℕ) → asked ≤ LONGEST_ASKED →
        DelayRule.pre desk.delay code asked }
    requires one_number { GivesOneNumber (DelayRule.post desk.delay) }
    requires no_births { world.old.process.ledger.births ≡ [] }
    requires no_receipts { world.old.process.ledger.filed ≡ [] }

    // For each command: what is read and written, and the world after it.
    ensures run { (root : List ℕ) → command_of words.now ≡ Some (runs root) →
        RunsSo root result (⟦<Desk as DeskTold>⟧.given desk)
        (⟦<Outside as OutsideTold>⟧.around world.old world.new)
        (object_of S.source_tells S.source_holds S.source_faults script.old script.new)
        (object_of K.sink_tells K.sink_holds K.sink_faults out.old out.new) }
    ensures check { (root service : List ℕ) → command_of words.now ≡ Some (checks root service) →
        ChecksSo root service result (⟦<Outside as OutsideTold>⟧.around world.old world.new)
        (object_of K.sink_tells K.sink_holds K.sink_faults out.old out.new) }
    ensures login { (root service : List ℕ) (user : Option (List ℕ)) →
        command_of words.now ≡ Some (logs_in root service user) →
        LogsInSo root service user result (⟦<Desk as DeskTold>⟧.at_terminal desk)
        (⟦<Outside as OutsideTold>⟧.around world.old world.new)
        (object_of K.sink_tells K.sink_holds K.sink_faults out.old out.new) }
    ensures generate { (seed lines : ℕ) → command_of words.now ≡ Some (generates seed lines) →
        GeneratesSo seed lines result (⟦<Desk as DeskTold>⟧.given desk)
        (⟦<Outside as OutsideTold>⟧.around world.old world.new)
        (object_of K.sink_tells K.sink_holds K.sink_faults out.old out.new) }
    ensures tally { (root user : List ℕ) → command_of words.now ≡ Some (tallies root user) →
        TalliesSo root user result
        (⟦<Outside as OutsideTold>⟧.around world.old world.new)
        (object_of K.sink_tells K.sink_holds K.sink_faults out.old out.new) }
    ensures audit { (root service : List ℕ) → command_of words.now ≡ Some (audits root service) →
        AuditsSo root service result
        (⟦<Outside as OutsideTold>⟧.around world.old world.new)
        (object_of S.source_tells S.source_holds S.source_faults script.old script.new)
        (object_of K.sink_tells K.sink_holds K.sink_faults out.old out.new) }
    ensures wire { (root : List ℕ) → command_of words.now ≡ Some (wires root) →
        WiresSo root result (⟦<Desk as DeskTold>⟧.given desk)
        (⟦<Outside as OutsideTold>⟧.around world.old world.new)
        (object_of S.source_tells S.source_holds S.source_faults script.old script.new)
        (object_of K.sink_tells K.sink_holds K.sink_faults out.old out.new) }
    ensures usage { command_of words.now ≡ None →
        ShowsUsage result (⟦<Outside as OutsideTold>⟧.around world.old world.new)
        (object_of K.sink_tells K.sink_holds K.sink_faults out.old out.new) }
    ensures command { GoesBy (command_of words.now) result
        (object_of S.source_tells S.source_holds S.source_faults script.old script.new) }

    // The causes of a status, with real objects too.
    ensures read_causes { ReadCauses result
        (object_of S.source_tells S.source_holds S.source_faults script.old script.new) }
    ensures write_causes { WriteCauses result
        (⟦<Outside as OutsideTold>⟧.around world.old world.new)
        (object_of K.sink_tells K.sink_holds K.sink_faults out.old out.new) }

    // With real objects too, whatever the status: every module data set was cleaned up exactly once, with its due
    // status.
    ensures cleaned_up { IsCleanedUp (MayEnd (command_of words.now) (S.source_tells script.old)
        (S.source_holds script.old).left result)
        (notes_of (⟦<Desk as DeskTold>⟧.given desk).players) world.new.process.ledger }
{
    match command_in(words) {
        None => write_usage(out).status(),
        Some(Command::Run(root)) => {
            cmd_run::laws::numbers_go_alone();
            script_exit(run_under::<Script, S, K>(alloc, root, script, out, world, desk)).status()
        }
        Some(Command::Check(root, service)) => check_service(
            alloc, root, service, out, world,
        ).status(),
        Some(Command::Login(target)) => {
            log_in(alloc, target.root, target.service, None, out, world, desk).status()
        }
        Some(Command::LoginAs(target, user)) => log_in(
            alloc,
            target.root,
            target.service,
            Some(user),
            out,
            world,
            desk,
        )
        .status(),
        Some(Command::Generate(generate_args)) => generate_lines(
            alloc,
            generate_args,
            out,
            world,
            desk,
        ).status(),
        Some(Command::Tally(root, user)) => tally_user(alloc, root, user, out, world).status(),
        Some(Command::Audit(root, service)) => {
            audit_service(alloc, root, service, script, out, world).status()
        }
        Some(Command::Wire(root)) => {
            frames_exit(run_under::<Frames, S, K>(alloc, root, script, out, world, desk)).status()
        }
    }
}
