ghost use Rattle.std.specs.Prelude.{◌≡◌, ◌≢◌, ◌<◌, length, None, IsTrue, IfOk, ℕ, List, codes};
ghost use Rattle.std.specs.List.{list_any};
ghost use Rattle.conv_port.specs.Conv.{ConvState};
ghost use Rattle.pam_outside.specs.Time.{ClockState};
ghost use Rattle.module_acts.specs.Act.{answers};
ghost use Rattle.module_acts.specs.Returns.{Follows};
ghost use Rattle.module_acts.specs.Seen.{scene_seen, user_seen};
ghost use Rattle.mod_lists.specs.SucceedIf.{at_once, before_user, conditions_in, is_about_log, meets_all, succeed_if_plays, unsupported, uses_uid};

use crate::condition::condition_of;
use crate::trial::try_words;
use crate::truth::Truth;
use module_acts::{Accounts, Check, CheckInput, laws};
use pam_base::{Code, Func, NoMemory, Text, Texts};
use pam_outside::Vault;
use pam_room::Call;
use std::alloc::Global;

/// What `SucceedIf` decides.
pub struct SucceedIfCheck;

impl Check for SucceedIfCheck {
    ghost label = { codes "pam_succeed_if" };

    ghost plays = { succeed_if_plays };

    ghost at_once = { before_user };

    ghost decides = { λ call caller user. meets_all (conditions_in call.args) user };

    fn name() -> &'static [u8] {
        b"pam_succeed_if"
    }

    fn at_once(call: &Call) -> Option<Code> {
        at_once(call.func).or(unsupported(uses_uid(call.args)))
    }

    fn decide(seen: &CheckInput, vault: &mut dyn Vault, _moment: u64) -> Result<Code, NoMemory> {
        let conditions = conditions_in(seen.alloc, seen.call.args)?;
        let code = meet_all(seen, &conditions, vault)?;
        Ok(code)
    }

    fn plays_so() {
        laws::act_steps();
    }
}

fn at_once(func: Func) -> Option<Code>
    ensures { result ≡ at_once func }
{
    match func {
        Func::SetCred => Some(Code::Ignore),
        _ => None,
    }
}

// The code if `use_uid` is given.
fn unsupported(given: bool) -> Option<Code>
    ensures { result ≡ unsupported given }
{
    if given { Some(Code::ServiceErr) } else { None }
}

fn uses_uid(args: &Texts) -> bool
    ensures { result ≡ uses_uid args.now }
{
    args.items()
        .iter()
        .any(|arg| arg.bytes() == b"use_uid".as_slice())
}

// The arguments except those about the system's log.
fn conditions_in(alloc: Global, args: &Texts) -> Result<Texts, NoMemory>
    ensures { IfOk result (λ conditions. conditions ≡ conditions_in args.now) }
{
    let mut conditions = Texts::new(alloc);
    let mut rest = args.items();
    while let [arg, after @ ..] = rest {
        if !is_about_log(arg.bytes()) {
            conditions.push(Text::from_bytes(alloc, arg.bytes())?)?;
        }
        rest = after;
    }
    Ok(conditions)
}

fn is_about_log(arg: &[u8]) -> bool
    ensures { result ≡ is_about_log arg.now }
{
    b"debug".as_slice() == arg
        || b"audit".as_slice() == arg
        || b"quiet".as_slice() == arg
        || b"quiet_fail".as_slice() == arg
        || b"quiet_success".as_slice() == arg
}

// Takes the conditions in order, up to the first that doesn't hold.
fn meet_all(seen: &CheckInput, conditions: &Texts, vault: &mut dyn Vault) -> Result<Code, NoMemory>
    requires { seen.now.transaction.now.items.user ≢ None }
    ensures tells { vault_tells vault.new ≡ vault_tells vault.old }
    ensures files { IsTrue (vault_tells vault.old) →
        (vault_holds vault.new).files ≡ (vault_holds vault.old).files }
    ensures told { IsTrue (vault_tells vault.old) → (conv : ConvState) (clock : ClockState) →
        IfOk result (λ code. Follows (meets_all conditions.now (user_seen seen.now))
        (scene_seen seen.now conv (vault_holds vault.old) clock) code
        (scene_seen seen.now conv (vault_holds vault.new) clock)) }
{
    laws::act_steps();
    let mut accounts = Accounts::new();
    let mut rest = conditions.items();
    while let [field, word, value, after @ ..] = rest {
        let condition = condition_of(field.bytes(), word.bytes(), value.bytes());
        let truth = try_words(seen, condition, &mut accounts, vault)?;
        match truth {
            Truth::Holds => rest = after,
            Truth::Fails => return Ok(Code::AuthErr),
            Truth::NoUser => return Ok(Code::UserUnknown),
            Truth::Faulty => return Ok(Code::ServiceErr),
        }
    }
    Ok(final_code(rest))
}

// The code if fewer than three words are left: SUCCESS if none is.
fn final_code(rest: &[Text]) -> Code
    ensures { (user : List ℕ) → length rest.now < 3 → meets_all rest.now user ≡ answers result }
{
    match rest {
        [] => Code::Success,
        [_, ..] => Code::ServiceErr,
    }
}
