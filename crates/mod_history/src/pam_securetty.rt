ghost use Rattle.std.specs.Prelude.{◌≡◌, IsTrue, IfOk, codes};
ghost use Rattle.pam_base.specs.declared.code.Code.TheVariants.{Success};
ghost use Rattle.conv_port.specs.Conv.{ConvState};
ghost use Rattle.pam_outside.specs.Time.{ClockState};
ghost use Rattle.module_acts.specs.Accounts.{Known};
ghost use Rattle.module_acts.specs.Act.{Acts, finds_account};
ghost use Rattle.module_acts.specs.Seen.{scene_seen};
ghost use Rattle.module_acts.specs.Uncheck.{code_unchecked};
ghost use Rattle.mod_history.specs.Securetty.{terminal_for_account, terminal_code, checks_root, is_secure, is_terminal, securetty_plays, terminal_name};

use account_db::without_end;
use module_acts::{
    ACCOUNT_LIMIT, Account, Accounts, Check, CheckInput, Content, account_of, code_unchecked, laws,
    read_named,
};
use pam_base::{Code, ItemName, Lines, NoMemory};
use pam_outside::Vault;
use pam_room::{Call, get_item, value_in};

/// What `Securetty` decides.
pub struct SecurettyCheck;

impl Check for SecurettyCheck {
    ghost label = { codes "pam_securetty" };

    ghost plays = { securetty_plays };

    ghost at_once = { λ call. code_unchecked call.func Success };

    ghost decides = { λ call caller user. finds_account user terminal_for_account };

    fn name() -> &'static [u8] {
        b"pam_securetty"
    }

    fn at_once(call: &Call) -> Option<Code> {
        code_unchecked(call.func, Code::Success)
    }

    fn decide(seen: &CheckInput, vault: &mut dyn Vault, _moment: u64) -> Result<Code, NoMemory> {
        laws::act_steps();
        let mut accounts = Accounts::new();
        let account = account_of(seen, &mut accounts, vault)?;
        let entry = match account {
            Account::Unreadable => return Ok(Code::ServiceErr),
            Account::Missing => return Ok(Code::UserUnknown),
            Account::Found(entry) => entry,
        };
        if entry.uid != 0 {
            return Ok(Code::Success);
        }
        let code = check_root(seen, vault)?;
        Ok(code)
    }

    fn plays_so() {
        laws::act_steps();
    }
}

// Looks root's terminal up in the list.
fn check_root(seen: &CheckInput, vault: &mut dyn Vault) -> Result<Code, NoMemory>
    ensures tells { vault_tells vault.new ≡ vault_tells vault.old }
    ensures files { IsTrue (vault_tells vault.old) →
        (vault_holds vault.new).files ≡ (vault_holds vault.old).files }
    ensures told { IsTrue (vault_tells vault.old) →
        (conv : ConvState) (clock : ClockState) (known : Known) →
        IfOk result (λ code. Acts checks_root known
        (scene_seen seen.now conv (vault_holds vault.old) clock) code
        (scene_seen seen.now conv (vault_holds vault.new) clock)) }
{
    laws::act_steps();
    match get_item(&seen.transaction.items, ItemName::Tty) {
        None => Ok(Code::ServiceErr),
        Some(tty) => {
            let list = read_named(
                seen.alloc,
                vault,
                seen.process,
                b"/etc/securetty",
                ACCOUNT_LIMIT,
            )?;
            Ok(terminal_code(terminal_name(tty), &list))
        }
    }
}

// The code by the list.
fn terminal_code(name: &[u8], list: &Content) -> Code
    ensures { result ≡ terminal_code name.now list.now }
{
    match list {
        Content::Absent => Code::Success,
        Content::Unreadable => Code::ServiceErr,
        Content::Holds(text) if is_secure(name, text.bytes()) => Code::Success,
        Content::Holds(_) => Code::AuthErr,
    }
}

// Whether the terminal is in the list.
#[tactic(auto, unfolding(crate::specs::Securetty::is_secure))]
fn is_secure(name: &[u8], text: &[u8]) -> bool
    ensures { result ≡ is_secure name.now text.now }
{
    let mut lines = Lines::new(text);
    while let Some(line) = lines.next_line() {
        if is_terminal(name, without_end(line)) {
            return true;
        }
    }
    false
}

// Whether a line names the terminal.
fn is_terminal(name: &[u8], line: &[u8]) -> bool
    ensures { result ≡ is_terminal name.now line.now }
{
    !line.is_empty() && line == name
}

// The terminal's name, without a leading `/dev/`.
fn terminal_name(tty: &[u8]) -> &[u8]
    ensures { result.now ≡ terminal_name tty.now }
{
    value_in(b"/dev/", tty).unwrap_or(tty)
}
