ghost use Rattle.std.specs.Prelude.{◌≡◌, Ok, Some};
ghost use Rattle.pam_base.specs.declared.code.Code.{Code};
ghost use Rattle.record_reader.specs.Object.{object_of};
ghost use Rattle.cmd_run.specs.Seen.{IsSoundIn};
ghost use Rattle.cmd_login.specs.Ends.{IsDenial, IsNoEnd};
ghost use Rattle.cmd_login.specs.Login.{GoesThrough};
ghost use Rattle.cmd_login.specs.Reported.{Goes};

use crate::calls::{LoginCall, code_in};
use crate::making::make;
use cmd_run::pam_library::{Library, Session, Told};
use cmd_run::pam_room::World;
use cmd_run::{TimeOfDay, TimeTold};
use pam_base::Code;
use pam_outside::Sink;
use record_reader::Stop;
use std::alloc::Global;

/// Makes these calls one after another, skips those that the code before them doesn't ask for, and stops at the first
/// that denies the login. Returns the code that denied it, if any.
pub(crate) fn go_through<K: Sink>(
    alloc: Global,
    library: &mut Library,
    calls: &[LoginCall],
    last: Code,
    time: &Option<Box<dyn TimeOfDay>>,
    out: &mut K,
    world: &mut World,
) -> Result<Option<Code>, Stop>
    requires { IsSoundIn (⟦<Session as Told>⟧.seen library.old world.old) }
    ensures goes { let seen = ⟦<Session as Told>⟧.seen in
        Goes (GoesThrough calls.now last) IsNoEnd
        (⟦<Option<Box<dyn TimeOfDay>> as TimeTold>⟧.timing time.now) result
        (seen library.old world.old) (seen library.new world.new)
        (object_of K.sink_tells K.sink_holds K.sink_faults out.old out.new) }
    ensures denies { (code : Code) → result ≡ Ok (Some code) → IsDenial code }
{
    let Some((call, others)) = calls.split_first() else {
        return Ok(None);
    };
    if !call.when.is_due(last) {
        return go_through(alloc, library, others, last, time, out, world);
    }
    let answer = make(alloc, library, call.place, call.call(), time, out, world)?;
    let code = code_in(&answer);
    if call.accepted.accepts(code) {
        go_through(alloc, library, others, code, time, out, world)
    } else {
        Ok(Some(code))
    }
}
