ghost use Rattle.std.specs.Prelude.{◌≡◌, length, map, reverse};
ghost use Rattle.data_cleanup.specs.Cleanup.{ledger_after};
ghost use Rattle.pam_room.specs.Stays.{IsReady};
ghost use Rattle.pam_room.specs.Module.{notes_of, player_of};
ghost use Rattle.pam_room.specs.Plain.{plain_transaction, plain_process};

use crate::module::Module;
use crate::process::Process;
use crate::room::Room;
use crate::sweep::end_data;
use crate::transaction::Transaction;
use conv_port::Conv;

/// Ends a transaction (`pam_end(3)`): its data are cleaned up by their owners with this status, the
/// last name first, and its conversation is given back. It does not allocate.
pub fn end_room(
    mods: &[Box<dyn Module>],
    room: Room,
    process: &mut Process,
    status: u32,
) -> Box<dyn Conv>
    requires { IsReady (length mods.now) (plain_transaction room.transaction)
        (plain_process process.old) }
    ensures conv { result ≡ room.conv }
    ensures process { process.new ≡ record process.old {
      ledger = ledger_after (notes_of (map (player_of label plays note breaks) mods.now)) status
          (reverse room.transaction.datums.live) process.old.ledger;
    } }
{
    let Room { transaction, conv } = room;
    let Transaction {
        items: _,
        env: _,
        datums,
        delay: _,
        said: _,
        trail: _,
        handle: _,
        serving: _,
        put_off: _,
    } = transaction;
    end_data(mods, datums, &mut process.ledger, status);
    conv
}
