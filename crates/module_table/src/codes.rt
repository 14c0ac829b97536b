ghost use Rattle.std.specs.Prelude.{◌≡◌, map};
ghost use Rattle.std.specs.List.{list_all, list_any};
ghost use Rattle.pam_base.specs.Code.{all_codes};
ghost use Rattle.module_table.specs.Codes.{are_codes, is_code, is_incomplete, is_named, is_same};
ghost use Rattle.module_table.specs.Codes.{lists, may, wanted, yes_codes};
ghost use Rattle.module_table.specs.Judging.{counts};

use crate::judging::Judging;
use pam_base::{Code, Parts, code_named};

/// Whether a text is `any`, or names codes with commas between them, after a `!` or not.
pub fn are_codes(text: &[u8]) -> bool
    ensures { result ≡ are_codes text.now }
{
    if text == b"any".as_slice() {
        return true;
    }
    match text {
        [b'!', rest @ ..] => all_named(&mut Parts::new(b',', rest)),
        _ => all_named(&mut Parts::new(b',', text)),
    }
}

fn all_named(parts: &mut Parts) -> bool
    ensures { result ≡ list_all is_code parts.old }
{
    while let Some(part) = parts.next_part() {
        if !is_code(part) {
            return false;
        }
    }
    true
}

fn is_code(word: &[u8]) -> bool
    ensures { result ≡ is_code word.now }
{
    match code_named(word) {
        Some(_) => true,
        None => false,
    }
}

/// Which codes a text names, in the order of their numbers. `any` names all, and `!` all but those
/// that follow; INCOMPLETE is never one of them.
pub fn codes_in(text: &[u8]) -> [bool; 32]
    ensures { result ≡ map (may text.now) all_codes }
{
    [
        may(text, Code::Success),
        may(text, Code::OpenErr),
        may(text, Code::SymbolErr),
        may(text, Code::ServiceErr),
        may(text, Code::SystemErr),
        may(text, Code::BufErr),
        may(text, Code::PermDenied),
        may(text, Code::AuthErr),
        may(text, Code::CredInsufficient),
        may(text, Code::AuthinfoUnavail),
        may(text, Code::UserUnknown),
        may(text, Code::MaxTries),
        may(text, Code::NewAuthtokReqd),
        may(text, Code::AcctExpired),
        may(text, Code::SessionErr),
        may(text, Code::CredUnavail),
        may(text, Code::CredExpired),
        may(text, Code::CredErr),
        may(text, Code::NoModuleData),
        may(text, Code::ConvErr),
        may(text, Code::AuthtokErr),
        may(text, Code::AuthtokRecoveryErr),
        may(text, Code::AuthtokLockBusy),
        may(text, Code::AuthtokDisableAging),
        may(text, Code::TryAgain),
        may(text, Code::Ignore),
        may(text, Code::Abort),
        may(text, Code::AuthtokExpired),
        may(text, Code::ModuleUnknown),
        may(text, Code::BadItem),
        may(text, Code::ConvAgain),
        may(text, Code::Incomplete),
    ]
}

fn may(text: &[u8], code: Code) -> bool
    ensures { result ≡ may text.now code }
{
    !is_incomplete(code) && is_wanted(text, code)
}

fn is_incomplete(code: Code) -> bool
    ensures { result ≡ is_incomplete code }
{
    code == Code::Incomplete
}

fn is_wanted(text: &[u8], code: Code) -> bool
    ensures { result ≡ wanted text.now code }
{
    if text == b"any".as_slice() {
        return true;
    }
    match text {
        [b'!', rest @ ..] => !lists(rest, code),
        _ => lists(text, code),
    }
}

fn lists(text: &[u8], code: Code) -> bool
    ensures { result ≡ lists text.now code }
{
    one_names(&mut Parts::new(b',', text), code)
}

fn one_names(parts: &mut Parts, code: Code) -> bool
    ensures { result ≡ list_any (is_named code) parts.old }
{
    while let Some(part) = parts.next_part() {
        if is_named(code, part) {
            return true;
        }
    }
    false
}

fn is_named(code: Code, word: &[u8]) -> bool
    ensures { result ≡ is_named code word.now }
{
    match code_named(word) {
        Some(named) => is_same(code, named),
        None => false,
    }
}

fn is_same(code: Code, other: Code) -> bool
    ensures { result ≡ is_same code other }
{
    code == other
}

/// The codes with which a line counts: SUCCESS, if its module's does.
pub fn yes_codes(judging: Judging) -> [bool; 32]
    ensures { result ≡ yes_codes (counts judging) }
{
    let mut yes = [false; 32];
    yes[Code::Success as usize] = judging.counts();
    yes
}
