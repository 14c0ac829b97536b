ghost use Rattle.std.specs.Prelude.{◌≡◌};
ghost use Rattle.cmd_all.specs.ByCommand.{AuditsSo, ChecksSo, ReadCauses, TalliesSo, WriteCauses, object_of};
ghost use Rattle.cmd_all.specs.Exit.{exit_status};

use crate::exit::{Exit, audit_exit, check_exit, tally_exit};
use crate::outside::{Outside, OutsideTold};
use cmd_audit::audit_transcript;
use cmd_check::check;
use cmd_tally::list_failures;
use pam_outside::{Sink, Source};
use pam_room::World;
use std::alloc::Global;

/// Prints the configuration of a service under a root, or its first fault. Returns how the command ended.
pub(crate) fn check_service<K: Sink>(
    alloc: Global,
    root: &[u8],
    service: &[u8],
    out: &mut K,
    world: &mut World,
) -> Exit
    ensures check { ChecksSo root.now service.now (exit_status result)
        (⟦<Outside as OutsideTold>⟧.around world.old world.new)
        (object_of K.sink_tells K.sink_holds K.sink_faults out.old out.new) }
    ensures write_causes { WriteCauses (exit_status result)
        (⟦<Outside as OutsideTold>⟧.around world.old world.new)
        (object_of K.sink_tells K.sink_holds K.sink_faults out.old out.new) }
    ensures ledger { world.new.process.ledger ≡ world.old.process.ledger }
{
    let found = check(alloc, root, service, out, &mut *world.vault);
    check_exit(found)
}

/// Lists the recorded failures of a user under a root. Returns how the command ended.
pub(crate) fn tally_user<K: Sink>(
    alloc: Global,
    root: &[u8],
    user: &[u8],
    out: &mut K,
    world: &mut World,
) -> Exit
    ensures tally { TalliesSo root.now user.now (exit_status result)
        (⟦<Outside as OutsideTold>⟧.around world.old world.new)
        (object_of K.sink_tells K.sink_holds K.sink_faults out.old out.new) }
    ensures write_causes { WriteCauses (exit_status result)
        (⟦<Outside as OutsideTold>⟧.around world.old world.new)
        (object_of K.sink_tells K.sink_holds K.sink_faults out.old out.new) }
    ensures ledger { world.new.process.ledger ≡ world.old.process.ledger }
{
    let tallied = list_failures(alloc, root, user, out, &mut *world.vault);
    tally_exit(tallied)
}

/// Writes whether a transcript fits a service under a root. Returns how the command ended.
pub(crate) fn audit_service<S: Source, K: Sink>(
    alloc: Global,
    root: &[u8],
    service: &[u8],
    script: &mut S,
    out: &mut K,
    world: &mut World,
) -> Exit
    ensures audit { AuditsSo root.now service.now (exit_status result)
        (⟦<Outside as OutsideTold>⟧.around world.old world.new)
        (object_of S.source_tells S.source_holds S.source_faults script.old script.new)
        (object_of K.sink_tells K.sink_holds K.sink_faults out.old out.new) }
    ensures read_causes { ReadCauses (exit_status result)
        (object_of S.source_tells S.source_holds S.source_faults script.old script.new) }
    ensures write_causes { WriteCauses (exit_status result)
        (⟦<Outside as OutsideTold>⟧.around world.old world.new)
        (object_of K.sink_tells K.sink_holds K.sink_faults out.old out.new) }
    ensures ledger { world.new.process.ledger ≡ world.old.process.ledger }
{
    let audited = audit_transcript(alloc, root, service, script, out, &mut *world.vault);
    audit_exit(audited)
}
