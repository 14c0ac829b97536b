ghost use Rattle.std.specs.Prelude.{◌≡◌, None};

use item_store::Items;
use pam_base::Code;

/// An authentication that has ended with this code, and now waits (`pam_fail_delay(3)`). For as long as it waits, the
/// items of its transaction are lent here, where no token is set.
#[derive(Clone, Copy)]
pub struct Ended<'a> {
    pub code: Code,
    pub items: &'a Items,
    pub ghost token: { items.now.auth_tok ≡ None },
    pub ghost old_token: { items.now.old_auth_tok ≡ None },
}
