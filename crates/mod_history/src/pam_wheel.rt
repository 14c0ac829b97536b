ghost use Rattle.std.specs.Prelude.{◌≡◌, IfOk, codes};
ghost use Rattle.std.specs.Option.{option_copied};
ghost use Rattle.pam_base.specs.declared.code.Code.TheVariants.{Success};
ghost use Rattle.module_acts.specs.Uncheck.{code_unchecked};
ghost use Rattle.mod_history.specs.Wheel.{group_code, member_code, checks_user, code_by_groups, code_by_passwds, group_of_gid, is_passed_over, trusted, wheel_group, wheel_plays};

use account_db::{Group, Groups, Passwd, PasswdFile, entry_of, entry_of_uid, group_of, is_member};
use module_acts::{Accounts, Check, CheckInput, code_unchecked, has_argument, laws, user_of};
use pam_base::{Code, NoMemory, Texts};
use pam_outside::Vault;
use pam_room::Call;
use std::alloc::Global;

/// What `Wheel` decides.
pub struct WheelCheck;

impl Check for WheelCheck {
    ghost label = { codes "pam_wheel" };

    ghost plays = { wheel_plays };

    ghost at_once = { λ call. code_unchecked call.func Success };

    ghost decides = { λ call caller user. checks_user call.args caller user };

    fn name() -> &'static [u8] {
        b"pam_wheel"
    }

    fn at_once(call: &Call) -> Option<Code> {
        code_unchecked(call.func, Code::Success)
    }

    fn decide(seen: &CheckInput, vault: &mut dyn Vault, _moment: u64) -> Result<Code, NoMemory> {
        laws::act_steps();
        let caller = seen.process.caller;
        let mut accounts = Accounts::new();
        accounts.read_passwds(seen.alloc, vault, seen.process)?;
        let user = user_of(seen.transaction);
        let decided = code_by_passwds(seen.alloc, seen.call, caller, user, accounts.passwds())?;
        match decided {
            Some(code) => Ok(code),
            None => {
                accounts.read_groups(seen.alloc, vault, seen.process)?;
                let passwds = accounts.passwds();
                let code = code_by_groups(
                    seen.alloc,
                    seen.call,
                    caller,
                    passwds,
                    accounts.groups(),
                )?;
                Ok(code)
            }
        }
    }

    fn plays_so() {
        laws::act_steps();
        module_acts::laws::acting();
    }
}

// The code by the password file, if that decides it.
fn code_by_passwds(
    alloc: Global,
    call: &Call,
    caller: u32,
    user: &[u8],
    passwds: Option<&PasswdFile>,
) -> Result<Option<Code>, NoMemory>
    ensures { IfOk result (λ code. code ≡ code_by_passwds call.now.args.now caller user.now
        (option_copied passwds.entry)) }
{
    let Some(entries) = passwds else {
        return Ok(Some(Code::ServiceErr));
    };
    match entry_of(alloc, user, entries)? {
        None => Ok(Some(Code::UserUnknown)),
        Some(entry) => {
            if is_passed_over(call.args, &entry) {
                return Ok(Some(Code::Ignore));
            }
            match entry_of_uid(alloc, caller, entries)? {
                None => Ok(Some(Code::UserUnknown)),
                Some(_) => Ok(None),
            }
        }
    }
}

// Whether the user isn't root, if only root counts.
fn is_passed_over(args: &Texts, entry: &Passwd) -> bool
    ensures { result ≡ is_passed_over args.now entry.now }
{
    has_argument(b"root_only", args) && entry.uid != 0
}

// The code by both files.
fn code_by_groups(
    alloc: Global,
    call: &Call,
    caller: u32,
    passwds: Option<&PasswdFile>,
    groups: Option<&Groups>,
) -> Result<Code, NoMemory>
    ensures { IfOk result (λ code. code ≡ code_by_groups call.now.args.now caller
        (option_copied passwds.entry) (option_copied groups.entry)) }
{
    let Some(groups) = groups else {
        return Ok(Code::ServiceErr);
    };
    let Some(entries) = passwds else {
        return Ok(Code::ServiceErr);
    };
    match entry_of_uid(alloc, caller, entries)? {
        None => Ok(Code::UserUnknown),
        Some(entry) => Ok(group_code(
            has_argument(b"deny", call.args),
            has_argument(b"trust", call.args),
            &entry,
            wheel_group(call.value(b"group="), groups),
        )),
    }
}

// The group that is asked for, if there is one.
fn wheel_group<'a>(name: Option<&[u8]>, groups: &'a Groups) -> Option<&'a Group>
    ensures { option_copied result ≡ wheel_group (option_copied name.entry) groups.now }
{
    match name {
        Some(name) => group_of(name, groups),
        None => match group_of(b"wheel", groups) {
            Some(group) => Some(group),
            None => group_of_gid(0, groups),
        },
    }
}

// The first group with this ID.
fn group_of_gid(gid: u32, groups: &Groups) -> Option<&Group>
    ensures { option_copied result ≡ group_of_gid gid groups.now }
{
    groups.items().iter().find(|group| group.gid == gid)
}

// The code by the group, if there is one.
fn group_code(deny: bool, trust: bool, entry: &Passwd, group: Option<&Group>) -> Code
    ensures { result ≡ group_code deny trust entry.now (option_copied group.entry) }
{
    match group {
        None if deny => Code::Ignore,
        None => Code::PermDenied,
        Some(group) => {
            let member = is_member(entry.name.bytes(), Some(entry), group);
            member_code(deny, trust, member)
        }
    }
}

fn member_code(deny: bool, trust: bool, member: bool) -> Code
    ensures { result ≡ member_code deny trust member }
{
    if deny == member {
        Code::PermDenied
    } else {
        trusted(trust)
    }
}

fn trusted(trust: bool) -> Code
    ensures { result ≡ trusted trust }
{
    if trust { Code::Success } else { Code::Ignore }
}
