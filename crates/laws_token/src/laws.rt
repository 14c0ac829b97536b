ghost use Rattle.pam_handle.specs.AnyWorld.{AreUnset};
ghost use Rattle.laws_token.specs.Tokens.{EarlierTokensDontMatter, FirstLineSeesNoToken, NoTokenWhileItWaits};

use pam_handle::Ended;

// Each of these is a law: its contract states it.

/// An authentication, or a change of token, that isn't resumed does the same whatever AUTHTOK and
/// OLDAUTHTOK were before it: no line sees a token of an earlier call.
pub fn earlier_tokens_dont_matter()
    ensures { EarlierTokensDontMatter }
{}

/// With real objects too, an authentication, or a change of token, that isn't resumed runs its first
/// line in a transaction that is the same whatever AUTHTOK and OLDAUTHTOK were before it, and both
/// are unset there.
pub fn first_line_sees_no_earlier_token()
    ensures { FirstLineSeesNoToken }
{}

/// An authentication that ends waits after both tokens are cleared, and does nothing else after the
/// wait than to forget the requested delay.
pub fn no_token_is_set_during_the_wait()
    ensures { NoTokenWhileItWaits }
{}

/// With real objects too, no token is set in the items that an authentication lends to its wait for
/// as long as the program sleeps.
pub fn no_token_is_set_while_it_sleeps(ended: Ended)
    ensures { AreUnset ended.entry.items.now }
{}
