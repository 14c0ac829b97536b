ghost use Rattle.std.specs.Prelude.{◌≡◌, codes};
ghost use Rattle.std.specs.Option.{option_copied};
ghost use Rattle.example_login.specs.Guest.{guest_code, is_guest};

use mod_basic::{AtOnce, AtOnceModule};
use pam_base::{Code, Func, ItemName};
use pam_room::item_store::Items;
use pam_room::{Call, get_item};

/// A module of the application's own: only a user named `guest` is known.
pub type Guest = AtOnceModule<GuestRules>;

/// What `Guest` returns.
pub struct GuestRules;

impl AtOnce for GuestRules {
    ghost label = { codes "pam_guest" };

    ghost code_of = { λ call items caller. guest_code call.func items.user };

    fn name() -> &'static [u8] {
        b"pam_guest"
    }

    fn code_of(call: &Call, items: &Items, _caller: u32) -> Code {
        guest_code(call.func, get_item(items, ItemName::User))
    }
}

fn guest_code(func: Func, user: Option<&[u8]>) -> Code
    ensures { result ≡ guest_code func (option_copied user.entry) }
{
    if func == Func::Authenticate && !is_guest(user) {
        return Code::UserUnknown;
    }
    Code::Success
}

fn is_guest(user: Option<&[u8]>) -> bool
    ensures { result ≡ is_guest (option_copied user.entry) }
{
    match user {
        Some(name) => name == b"guest".as_slice(),
        None => false,
    }
}
