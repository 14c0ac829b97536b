ghost use Rattle.std.specs.Prelude.{◌≡◌, IsTrue, length};
ghost use Rattle.std.specs.Option.{option_copied};
ghost use Rattle.pam_base.specs.ServiceName.{is_service_name};
ghost use Rattle.pam_room.specs.Module.{notes_of};
ghost use Rattle.cmd_all.specs.ByCommand.{IsReady, LogsInSo, WriteCauses, object_of};
ghost use Rattle.cmd_all.specs.CleanedUp.{EndsLogin, IsCleanedUp};
ghost use Rattle.cmd_all.specs.Exit.{exit_status};

use crate::desk::{Desk, DeskTold, with_terminal};
use crate::exit::{Exit, login_exit};
use crate::opening::library_under;
use crate::outside::{Outside, OutsideTold};
use cmd_login::login;
use fail_delay::DelayRule;
use pam_base::NoMemory;
use pam_outside::Sink;
use pam_room::World;
use std::alloc::Global;

/// Logs a user in with a service under a root, at the terminal of `desk`. Returns how the login ended.
pub(crate) fn log_in<K: Sink>(
    alloc: Global,
    root: &[u8],
    service: &[u8],
    user: Option<&[u8]>,
    out: &mut K,
    world: &mut World,
    desk: Desk,
) -> Exit
    requires service { IsTrue (is_service_name service.now) }
    requires ready { IsReady (length desk.convs.items) (length desk.mods.items)
        (DelayRule.pre desk.delay) (DelayRule.post desk.delay) world.old.process.ledger }
    ensures login { LogsInSo root.now service.now (option_copied user.entry)
        (exit_status result)
        (⟦<Desk as DeskTold>⟧.at_terminal desk)
        (⟦<Outside as OutsideTold>⟧.around world.old world.new)
        (object_of K.sink_tells K.sink_holds K.sink_faults out.old out.new) }
    ensures write_causes { WriteCauses (exit_status result)
        (⟦<Outside as OutsideTold>⟧.around world.old world.new)
        (object_of K.sink_tells K.sink_holds K.sink_faults out.old out.new) }
    ensures cleaned_up { IsCleanedUp (EndsLogin (exit_status result))
        (notes_of (⟦<Desk as DeskTold>⟧.given desk).players) world.new.process.ledger }
{
    cmd_run::laws::proceeding_adds_events();
    let desk = with_terminal(desk);
    let Desk {
        mods,
        convs,
        term,
        delay,
        time,
    } = desk;
    let desk = Desk {
        mods,
        convs,
        term,
        delay,
        time: None,
    };
    match library_under(alloc, root, desk, world) {
        Err(NoMemory) => {
            drop(time);
            Exit::NoMemory
        }
        Ok(library) => {
            let mut library = library;
            let verdict = login(alloc, &mut library, service, user, &time, out, world);
            drop(time);
            library.dismiss();
            login_exit(verdict)
        }
    }
}
