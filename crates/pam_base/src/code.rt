ghost use Rattle.std.specs.Prelude.{◌≡◌, ◌<◌, ◌↔◌, IfSome, IsNone};
ghost use Rattle.pam_base.specs.Code.{number_of, name_of, code_word, all_codes, is_word, code_of_word};

/// The return codes of PAM, in the order of their numbers (`pam(3)`, `_pam_types.h`).
#[derive(Clone, Copy, Debug, PartialEq, Eq)]
pub enum Code {
    /// PAM_SUCCESS (0).
    Success,
    /// PAM_OPEN_ERR (1): a module could not be loaded.
    OpenErr,
    /// PAM_SYMBOL_ERR (2): a module lacks a function.
    SymbolErr,
    /// PAM_SERVICE_ERR (3): an error in a module.
    ServiceErr,
    /// PAM_SYSTEM_ERR (4): an error of the system, or a call with flags that are not allowed.
    SystemErr,
    /// PAM_BUF_ERR (5): out of memory, or a text is too long.
    BufErr,
    /// PAM_PERM_DENIED (6): the user is refused.
    PermDenied,
    /// PAM_AUTH_ERR (7): authentication failed.
    AuthErr,
    /// PAM_CRED_INSUFFICIENT (8): the caller may not see the authentication data.
    CredInsufficient,
    /// PAM_AUTHINFO_UNAVAIL (9): the authentication data cannot be read.
    AuthinfoUnavail,
    /// PAM_USER_UNKNOWN (10): there is no such account.
    UserUnknown,
    /// PAM_MAXTRIES (11): too many attempts; don't ask again.
    MaxTries,
    /// PAM_NEW_AUTHTOK_REQD (12): the password has expired and must be changed.
    NewAuthtokReqd,
    /// PAM_ACCT_EXPIRED (13): the account has expired.
    AcctExpired,
    /// PAM_SESSION_ERR (14): the session could not be opened or closed.
    SessionErr,
    /// PAM_CRED_UNAVAIL (15): the credentials cannot be retrieved.
    CredUnavail,
    /// PAM_CRED_EXPIRED (16): the credentials have expired.
    CredExpired,
    /// PAM_CRED_ERR (17): the credentials could not be set.
    CredErr,
    /// PAM_NO_MODULE_DATA (18): `pam_get_data(3)` found no data of this name.
    NoModuleData,
    /// PAM_CONV_ERR (19): the conversation failed.
    ConvErr,
    /// PAM_AUTHTOK_ERR (20): the new password could not be stored.
    AuthtokErr,
    /// PAM_AUTHTOK_RECOVERY_ERR (21): the old password could not be obtained.
    AuthtokRecoveryErr,
    /// PAM_AUTHTOK_LOCK_BUSY (22): the password file is locked.
    AuthtokLockBusy,
    /// PAM_AUTHTOK_DISABLE_AGING (23): password aging is switched off.
    AuthtokDisableAging,
    /// PAM_TRY_AGAIN (24): the first pass of `pam_chauthtok(3)` failed.
    TryAgain,
    /// PAM_IGNORE (25): the module does not count.
    Ignore,
    /// PAM_ABORT (26): the call was aborted.
    Abort,
    /// PAM_AUTHTOK_EXPIRED (27): the password has expired.
    AuthtokExpired,
    /// PAM_MODULE_UNKNOWN (28): there is no such module.
    ModuleUnknown,
    /// PAM_BAD_ITEM (29): the item may not be read or set.
    BadItem,
    /// PAM_CONV_AGAIN (30): the conversation has no reply yet.
    ConvAgain,
    /// PAM_INCOMPLETE (31): the call has to be made again once there is a reply.
    Incomplete,
}

/// All codes, in the order of their numbers.
pub const ALL_CODES: [Code; 32] = [
    Code::Success,
    Code::OpenErr,
    Code::SymbolErr,
    Code::ServiceErr,
    Code::SystemErr,
    Code::BufErr,
    Code::PermDenied,
    Code::AuthErr,
    Code::CredInsufficient,
    Code::AuthinfoUnavail,
    Code::UserUnknown,
    Code::MaxTries,
    Code::NewAuthtokReqd,
    Code::AcctExpired,
    Code::SessionErr,
    Code::CredUnavail,
    Code::CredExpired,
    Code::CredErr,
    Code::NoModuleData,
    Code::ConvErr,
    Code::AuthtokErr,
    Code::AuthtokRecoveryErr,
    Code::AuthtokLockBusy,
    Code::AuthtokDisableAging,
    Code::TryAgain,
    Code::Ignore,
    Code::Abort,
    Code::AuthtokExpired,
    Code::ModuleUnknown,
    Code::BadItem,
    Code::ConvAgain,
    Code::Incomplete,
];

/// The name of each code and its word in a configuration (`pam.conf(5)`), in the order of the codes' numbers.
const CODE_WORDS: [(&str, &str); 32] = [
    ("SUCCESS", "success"),
    ("OPEN_ERR", "open_err"),
    ("SYMBOL_ERR", "symbol_err"),
    ("SERVICE_ERR", "service_err"),
    ("SYSTEM_ERR", "system_err"),
    ("BUF_ERR", "buf_err"),
    ("PERM_DENIED", "perm_denied"),
    ("AUTH_ERR", "auth_err"),
    ("CRED_INSUFFICIENT", "cred_insufficient"),
    ("AUTHINFO_UNAVAIL", "authinfo_unavail"),
    ("USER_UNKNOWN", "user_unknown"),
    ("MAXTRIES", "maxtries"),
    ("NEW_AUTHTOK_REQD", "new_authtok_reqd"),
    ("ACCT_EXPIRED", "acct_expired"),
    ("SESSION_ERR", "session_err"),
    ("CRED_UNAVAIL", "cred_unavail"),
    ("CRED_EXPIRED", "cred_expired"),
    ("CRED_ERR", "cred_err"),
    ("NO_MODULE_DATA", "no_module_data"),
    ("CONV_ERR", "conv_err"),
    ("AUTHTOK_ERR", "authtok_err"),
    ("AUTHTOK_RECOVERY_ERR", "authtok_recover_err"),
    ("AUTHTOK_LOCK_BUSY", "authtok_lock_busy"),
    ("AUTHTOK_DISABLE_AGING", "authtok_disable_aging"),
    ("TRY_AGAIN", "try_again"),
    ("IGNORE", "ignore"),
    ("ABORT", "abort"),
    ("AUTHTOK_EXPIRED", "authtok_expired"),
    ("MODULE_UNKNOWN", "module_unknown"),
    ("BAD_ITEM", "bad_item"),
    ("CONV_AGAIN", "conv_again"),
    ("INCOMPLETE", "incomplete"),
];

/// The number of a code in `_pam_types.h`, from 0 to 31.
pub fn code_number(code: Code) -> u32
    ensures { result ≡ number_of code }
{
    code as u32
}

/// The code with this number; None if it is above 31.
pub fn code_of(number: u32) -> Option<Code>
    ensures code { IfSome result (λ code. number_of code ≡ number) }
    ensures none { IsNone result ↔ (31 < number) }
{
    if number < 32 {
        Some(code_at(number))
    } else {
        None
    }
}

fn code_at(number: u32) -> Code
    requires { number < 32 }
    ensures { number_of result ≡ number }
{
    ALL_CODES[number as usize]
}

/// The constant's name without `PAM_`, as `AUTH_ERR`. (`pam_strerror(3)` gives a sentence instead.)
pub fn code_name(code: Code) -> &'static str
    ensures { result.now ≡ name_of code }
{
    CODE_WORDS[code as usize].0
}

/// The word that `pam.conf(5)` has for the code: its name in lower case, except `authtok_recover_err` for 21.
pub fn code_word(code: Code) -> &'static str
    ensures { result.now ≡ code_word code }
{
    CODE_WORDS[code as usize].1
}

/// The code that a word of a configuration names, in upper or lower case (`pam.conf(5)`): the code's own name, and for 21
/// also `authtok_recover_err`. None for any other word.
pub fn code_named(word: &[u8]) -> Option<Code>
    ensures { result ≡ code_of_word word.now }
{
    ALL_CODES
        .iter()
        .copied()
        .find(|code| is_word_of(*code, word))
}

fn is_word_of(code: Code, word: &[u8]) -> bool
    ensures { result ≡ is_word code word.now }
{
    word.eq_ignore_ascii_case(code_name(code).as_bytes())
        || (code == Code::AuthtokRecoveryErr
            && word.eq_ignore_ascii_case(code_word(code).as_bytes()))
}
