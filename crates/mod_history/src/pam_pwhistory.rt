ghost use Rattle.std.specs.Prelude.{◌≡◌, codes};
ghost use Rattle.pam_room.specs.Plain.{plain_call};
ghost use Rattle.module_acts.specs.Act.{answers};
ghost use Rattle.mod_history.specs.Pwhistory.{at_once, checks_token, pwhistory_plays};

use crate::change::check_token;
use conv_port::Conv;
use module_acts::{Work, WorkInput, laws};
use pam_base::{Code, ConvErr, Func, PRELIM_CHECK, Refuse};
use pam_outside::Vault;
use pam_room::{Call, Transaction};

/// The work of `Pwhistory`.
pub struct PwhistoryWork;

impl Work for PwhistoryWork {
    ghost label = { codes "pam_pwhistory" };

    ghost plays = { pwhistory_plays };

    ghost at_once = { λ call. at_once call.func call.flags };

    ghost does = { λ call caller. checks_token call answers };

    fn name() -> &'static [u8] {
        b"pam_pwhistory"
    }

    fn at_once(call: &Call) -> Option<Code> {
        at_once(call)
    }

    fn work(
        asked: &WorkInput,
        transaction: &mut Transaction,
        conv: &mut dyn Conv,
        vault: &mut dyn Vault,
        _moment: u64,
    ) -> Result<Code, Refuse<ConvErr>> {
        laws::talking();
        laws::codes_finish();
        check_token(asked, transaction, conv, vault)
    }

    fn plays_so() {
        module_acts::laws::act_steps();
    }
}

// The code, if nothing has to be looked at.
fn at_once(call: &Call) -> Option<Code>
    ensures { result ≡ at_once (plain_call call.now).func (plain_call call.now).flags }
{
    match call.func {
        Func::ChAuthTok if call.has_flag(PRELIM_CHECK) => Some(Code::Success),
        Func::ChAuthTok => None,
        Func::Authenticate
        | Func::SetCred
        | Func::AcctMgmt
        | Func::OpenSession
        | Func::CloseSession => Some(Code::ModuleUnknown),
    }
}
