ghost use Rattle.std.specs.Prelude.{codes};
ghost use Rattle.mod_basic.specs.Deny.{denial};

use crate::at_once::AtOnce;
use pam_base::{Code, Func};
use pam_room::Call;
use pam_room::item_store::Items;

/// What `Deny` returns.
pub struct DenyRules;

impl AtOnce for DenyRules {
    ghost label = { codes "pam_deny" };

    ghost code_of = { λ call items caller. denial call.func };

    fn name() -> &'static [u8] {
        b"pam_deny"
    }

    fn code_of(call: &Call, _items: &Items, _caller: u32) -> Code {
        match call.func {
            Func::Authenticate | Func::AcctMgmt => Code::AuthErr,
            Func::SetCred => Code::CredErr,
            Func::OpenSession | Func::CloseSession => Code::SessionErr,
            Func::ChAuthTok => Code::AuthtokErr,
        }
    }
}
