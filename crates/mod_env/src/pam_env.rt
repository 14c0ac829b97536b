ghost use Rattle.std.specs.Prelude.{◌≡◌, ◌∷◌, [], Some, IsTrue, IfOk, codes, unwrap_or};
ghost use Rattle.std.specs.Option.{option_copied};
ghost use Rattle.conv_port.specs.Conv.{ConvState};
ghost use Rattle.pam_outside.specs.Time.{ClockState};
ghost use Rattle.pam_base.specs.declared.code.Code.{Code};
ghost use Rattle.module_acts.specs.Accounts.{nothing_known};
ghost use Rattle.module_acts.specs.Act.{Acts, scene_at};
ghost use Rattle.mod_env.specs.Env.{at_once, sets_if_well_formed, after_conf, sets_by_texts, env_plays, is_zero, reads_first, reads_second, text_in};
ghost use Rattle.mod_env.specs.Conf.{conf_of};
ghost use Rattle.mod_env.specs.EnvFile.{assignments_of};
ghost use Rattle.mod_env.specs.Puts.{Puts};

use crate::conf::conf_of;
use crate::env_file::assignments_of;
use crate::setting::{put_all, set_all};
use conv_port::Conv;
use module_acts::pam_room::{Call, Transaction};
use module_acts::{Accounts, Content, SMALL_FILE_LIMIT, Work, WorkInput, laws, read_named};
use pam_base::{Code, ConvErr, Func, NoMemory, Refuse, Text};
use pam_outside::Vault;
use std::alloc::Global;

/// The work of `Env`.
pub struct EnvWork;

impl Work for EnvWork {
    ghost label = { codes "pam_env" };

    ghost plays = { env_plays };

    ghost at_once = { λ call. at_once call.func };

    ghost does = { λ call caller. reads_first call.args };

    fn name() -> &'static [u8] {
        b"pam_env"
    }

    fn at_once(call: &Call) -> Option<Code> {
        at_once(call.func)
    }

    fn work(
        asked: &WorkInput,
        transaction: &mut Transaction,
        _conv: &mut dyn Conv,
        vault: &mut dyn Vault,
        _moment: u64,
    ) -> Result<Code, Refuse<ConvErr>> {
        crate::laws::puts_alone();
        let code = read_first(asked, transaction, vault)?;
        Ok(code)
    }

    fn plays_so() {
        laws::act_steps();
    }
}

fn at_once(func: Func) -> Option<Code>
    ensures { result ≡ at_once func }
{
    match func {
        Func::Authenticate => Some(Code::Ignore),
        Func::SetCred | Func::OpenSession => None,
        Func::AcctMgmt | Func::ChAuthTok => Some(Code::ServiceErr),
        Func::CloseSession => Some(Code::Success),
    }
}

// Reads the first file, and goes on.
fn read_first(
    asked: &WorkInput,
    transaction: &mut Transaction,
    vault: &mut dyn Vault,
) -> Result<Code, NoMemory>
    ensures tells { vault_tells vault.new ≡ vault_tells vault.old }
    ensures files { IsTrue (vault_tells vault.old) →
        (vault_holds vault.new).files ≡ (vault_holds vault.old).files }
    ensures told { IsTrue (vault_tells vault.old) → (conv : ConvState) (clock : ClockState) →
        IfOk result (λ code. Acts (reads_first asked.now.call.now.args.now) nothing_known
        (scene_at transaction.old conv (vault_holds vault.old) clock asked.now.process.now) code
        (scene_at transaction.new conv (vault_holds vault.new) clock asked.now.process.now)) }
    ensures puts { Puts transaction.old transaction.new }
{
    laws::act_steps();
    crate::laws::puts_alone();
    let name = name_or(
        asked.call.value(b"conffile="),
        b"/etc/security/pam_env.conf",
    );
    let content = read_named(asked.alloc, vault, asked.process, name, SMALL_FILE_LIMIT)?;
    match text_in(asked.alloc, content) {
        None => Ok(Code::ServiceErr),
        Some(conf) => {
            let code = read_second(asked, conf.bytes(), transaction, vault)?;
            Ok(code)
        }
    }
}

// Reads the second file unless `readenv=0` is given, and goes on.
fn read_second(
    asked: &WorkInput,
    conf: &[u8],
    transaction: &mut Transaction,
    vault: &mut dyn Vault,
) -> Result<Code, NoMemory>
    ensures tells { vault_tells vault.new ≡ vault_tells vault.old }
    ensures files { IsTrue (vault_tells vault.old) →
        (vault_holds vault.new).files ≡ (vault_holds vault.old).files }
    ensures told { IsTrue (vault_tells vault.old) → (conv : ConvState) (clock : ClockState) →
        IfOk result (λ code. Acts (after_conf asked.now.call.now.args.now (Some conf.now))
        nothing_known
        (scene_at transaction.old conv (vault_holds vault.old) clock asked.now.process.now) code
        (scene_at transaction.new conv (vault_holds vault.new) clock asked.now.process.now)) }
    ensures puts { Puts transaction.old transaction.new }
{
    crate::laws::puts_alone();
    if is_zero(asked.call.value(b"readenv=")) {
        let nothing = no_text(asked.alloc);
        return set_by_texts(asked, conf, nothing, transaction, vault);
    }
    let name = name_or(asked.call.value(b"envfile="), b"/etc/environment");
    let content = read_named(asked.alloc, vault, asked.process, name, SMALL_FILE_LIMIT)?;
    let env = text_in(asked.alloc, content);
    let code = set_by_texts(asked, conf, env, transaction, vault)?;
    Ok(code)
}

// Sets the variables by the texts of both files.
fn set_by_texts(
    asked: &WorkInput,
    conf: &[u8],
    env: Option<Text>,
    transaction: &mut Transaction,
    vault: &mut dyn Vault,
) -> Result<Code, NoMemory>
    ensures tells { vault_tells vault.new ≡ vault_tells vault.old }
    ensures files { IsTrue (vault_tells vault.old) →
        (vault_holds vault.new).files ≡ (vault_holds vault.old).files }
    ensures told { IsTrue (vault_tells vault.old) → (conv : ConvState) (clock : ClockState) →
        IfOk result (λ code. Acts (sets_by_texts conf.now env) nothing_known
        (scene_at transaction.old conv (vault_holds vault.old) clock asked.now.process.now) code
        (scene_at transaction.new conv (vault_holds vault.new) clock asked.now.process.now)) }
    ensures puts { Puts transaction.old transaction.new }
{
    laws::act_steps();
    crate::laws::puts_alone();
    match env {
        None => Ok(Code::ServiceErr),
        Some(env) => set_by_conf(asked, conf, env.bytes(), transaction, vault),
    }
}

// Sets the variables by the text of the first file, and then by that of the second.
fn set_by_conf(
    asked: &WorkInput,
    conf: &[u8],
    env: &[u8],
    transaction: &mut Transaction,
    vault: &mut dyn Vault,
) -> Result<Code, NoMemory>
    ensures tells { vault_tells vault.new ≡ vault_tells vault.old }
    ensures files { IsTrue (vault_tells vault.old) →
        (vault_holds vault.new).files ≡ (vault_holds vault.old).files }
    ensures told { IsTrue (vault_tells vault.old) → (conv : ConvState) (clock : ClockState) →
        IfOk result (λ code. Acts (sets_if_well_formed (conf_of conf.now)
        (assignments_of env.now)) nothing_known
        (scene_at transaction.old conv (vault_holds vault.old) clock asked.now.process.now) code
        (scene_at transaction.new conv (vault_holds vault.new) clock asked.now.process.now)) }
    ensures puts { Puts transaction.old transaction.new }
{
    laws::act_steps();
    crate::laws::puts_alone();
    let entries = match conf_of(asked.alloc, conf)? {
        None => return Ok(Code::ServiceErr),
        Some(entries) => entries,
    };
    let assignments = assignments_of(asked.alloc, env)?;
    let mut accounts = Accounts::new();
    if !set_all(asked, &entries, transaction, &mut accounts, vault)? {
        return Ok(Code::BufErr);
    }
    put_all(&assignments, transaction)?;
    Ok(Code::Success)
}

fn no_text(alloc: Global) -> Option<Text>
    ensures { result ≡ Some [] }
{
    Some(Text::new(alloc))
}

// The text of a file; one that doesn't exist counts as empty. None if it can't be read.
fn text_in(alloc: Global, content: Content) -> Option<Text>
    ensures { result ≡ text_in content }
{
    match content {
        Content::Absent => Some(Text::new(alloc)),
        Content::Unreadable => None,
        Content::Holds(text) => Some(text),
    }
}

fn is_zero(word: Option<&[u8]>) -> bool
    ensures { result ≡ is_zero (option_copied word.entry) }
{
    match word {
        Some(word) => word == b"0".as_slice(),
        None => false,
    }
}

fn name_or<'a>(name: Option<&'a [u8]>, usual: &'static [u8]) -> &'a [u8]
    ensures { result.now ≡ unwrap_or (option_copied name.entry) usual.now }
{
    match name {
        Some(name) => name,
        None => usual,
    }
}
