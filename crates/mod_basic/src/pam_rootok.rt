ghost use Rattle.std.specs.Prelude.{◌≡◌, codes};
ghost use Rattle.mod_basic.specs.Rootok.{rootok_code};

use crate::at_once::AtOnce;
use pam_base::{Code, Func};
use pam_room::Call;
use pam_room::item_store::Items;

/// What `Rootok` returns.
pub struct RootokRules;

impl AtOnce for RootokRules {
    ghost label = { codes "pam_rootok" };

    ghost code_of = { λ call items caller. rootok_code call.func caller };

    fn name() -> &'static [u8] {
        b"pam_rootok"
    }

    fn code_of(call: &Call, _items: &Items, caller: u32) -> Code {
        rootok_code(call.func, caller)
    }
}

fn rootok_code(func: Func, caller: u32) -> Code
    ensures { result ≡ rootok_code func caller }
{
    match func {
        Func::SetCred => Code::Success,
        Func::OpenSession | Func::CloseSession => Code::ModuleUnknown,
        Func::Authenticate | Func::AcctMgmt | Func::ChAuthTok if caller == 0 => Code::Success,
        Func::Authenticate | Func::AcctMgmt | Func::ChAuthTok => Code::AuthErr,
    }
}
