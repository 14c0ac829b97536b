//! What a change of a token achieves, stated independently of the code.
ghost use Rattle.std.specs.Prelude.{◌≡◌, ◌≤◌, List, false};
ghost use Rattle.pam_base.specs.declared.call.Func.{Func};
ghost use Rattle.pam_base.specs.declared.code.Code.{Code};
ghost use Rattle.pam_room.specs.Call.{PlainCall, has_flag, prelim_check};
ghost use Rattle.pam_room.specs.Module.{NamedData, SeenRoom, Sight};
ghost use Rattle.mod_unix.specs.Changed.{StaysOrIsChanged};
ghost use Rattle.mod_unix.specs.Unix.{unix_plays};

use pam_base::{Code, Func};

/// If a second pass of chauthtok returns SUCCESS, the token that was set is the user's, and every
/// other user's entry is as it was, as is every other file. With CHANGE_EXPIRED_AUTHTOK all may be
/// as before. The time is one that a clock gives.
pub fn changed_token_is_taken()
    ensures { (call : PlainCall) (room : SeenRoom) (held : List NamedData) (sight : Sight) →
        call.func ≡ Func.ChAuthTok → has_flag call.flags prelim_check ≡ false →
        sight.clock.moment ≤ 1000000000000 →
        (unix_plays call room held sight).code ≡ Code.Success →
        StaysOrIsChanged call sight (unix_plays call room held sight) }
{
    account_db::laws::new_hash_is_read();
    sha_crypt::laws::hash_is_a_setting();
    sha_crypt::laws::hash_fits_a_field();
    sha_crypt::laws::plain_settings_have_no_fault();
}
