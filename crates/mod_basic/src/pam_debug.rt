ghost use Rattle.std.specs.Prelude.{◌≡◌, codes};
ghost use Rattle.std.specs.Option.{option_copied};
ghost use Rattle.pam_room.specs.Call.{has_flag, prelim_check};
ghost use Rattle.mod_basic.specs.Debug.{code_or_success, debug_code, debug_key};

use crate::at_once::AtOnce;
use pam_base::{Code, Func, PRELIM_CHECK, code_named};
use pam_room::Call;
use pam_room::item_store::Items;

/// What `Debug` returns.
pub struct DebugRules;

impl AtOnce for DebugRules {
    ghost label = { codes "pam_debug" };

    ghost code_of = { λ call items caller. debug_code call };

    fn name() -> &'static [u8] {
        b"pam_debug"
    }

    fn code_of(call: &Call, _items: &Items, _caller: u32) -> Code {
        code_or_success(call.value(key_of(call)))
    }
}

// The argument that names the code for a call.
fn key_of(call: &Call) -> &'static [u8]
    ensures { result.now ≡ debug_key call.now.func (has_flag call.now.flags prelim_check) }
{
    match call.func {
        Func::Authenticate => b"auth=",
        Func::SetCred => b"cred=",
        Func::AcctMgmt => b"acct=",
        Func::OpenSession => b"open_session=",
        Func::CloseSession => b"close_session=",
        Func::ChAuthTok if call.has_flag(PRELIM_CHECK) => b"prechauthtok=",
        Func::ChAuthTok => b"chauthtok=",
    }
}

fn code_or_success(word: Option<&[u8]>) -> Code
    ensures { result ≡ code_or_success (option_copied word.entry) }
{
    match word {
        Some(word) => code_named(word).unwrap_or(Code::Success),
        None => Code::Success,
    }
}
