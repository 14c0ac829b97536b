ghost use Rattle.std.specs.Prelude.{◌≡◌};
ghost use Rattle.mod_unix.specs.Verify.{hash_verified, is_locked, verified};

use crate::look::KnownPassword;
use pam_base::{Code, MAX_TEXT};
use sha_crypt::crypt;

/// Whether a token is the user's: SUCCESS or AUTH_ERR; USER_UNKNOWN or AUTHINFO_UNAVAIL if the
/// user's password isn't known. It allocates nothing, so a wrong token can't be out of memory.
pub(crate) fn verify(look: &KnownPassword, token: &[u8]) -> Code
    ensures { result ≡ verified look.now token.now }
{
    match look {
        KnownPassword::Unknown => Code::UserUnknown,
        KnownPassword::Unavailable => Code::AuthinfoUnavail,
        KnownPassword::Plain(hash) => verify_hash(hash.bytes(), token),
        KnownPassword::Shadowed(entry) => verify_hash(entry.hash.bytes(), token),
    }
}

/// Whether a token is the one with this hash. It allocates nothing.
#[tactic(auto, unfolding(crate::specs::Verify::hash_verified))]
pub(crate) fn verify_hash(hash: &[u8], token: &[u8]) -> Code
    ensures { result ≡ hash_verified hash.now token.now }
{
    if is_locked(hash) || token.len() > MAX_TEXT {
        return Code::AuthErr;
    }
    match crypt(hash, token) {
        Ok(made) if made.bytes() == hash => Code::Success,
        Ok(_) => Code::AuthErr,
        Err(_) => Code::AuthinfoUnavail,
    }
}

/// Whether a hash is empty or locked (`shadow(5)`), so that it lets nobody in.
pub fn is_locked(hash: &[u8]) -> bool
    ensures { result ≡ is_locked hash.now }
{
    match hash {
        [] => true,
        [first, ..] => *first == b'!' || *first == b'*',
    }
}
