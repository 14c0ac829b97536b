ghost use Rattle.std.specs.Prelude.{◌≡◌, ◌≢◌, ◌≤◌, Some, None, IsTrue, IfOk, OnOk, OnErr};
ghost use Rattle.std.specs.Option.{option_copied};
ghost use Rattle.module_acts.specs.Content.{IsWithin};
ghost use Rattle.module_acts.specs.Accounts.{account_in, account_limit, account_or_missing, entry_known, groups_in, known_groups, known_passwds, nothing_known, passwds_in, shells_in};
ghost use Rattle.module_acts.specs.Act.{LooksTo, StepsTo, reads_groups, reads_passwds, reads_shells};
ghost use Rattle.module_acts.specs.Found.{plain_account};

use crate::content::{Content, read_content};
use account_db::{Groups, Passwd, PasswdFile, entry_of, groups, passwds, shells};
use pam_base::{NoMemory, Refuse, Texts};
use pam_outside::Vault;
use pam_room::Process;
use std::alloc::Global;
use std::marker::Model;

/// The maximum number of bytes of an account file, or of a list.
pub const ACCOUNT_LIMIT: u32 = 1_048_576;

/// The account files as a module reads them in one call: each is read once, when it is first
/// needed, and what was found is used for the rest of the call.
#[derive(Drop)]
pub struct Accounts {
    // What was found, if the file was read; None inside if it can't be.
    passwds: Option<Option<PasswdFile>>,
    groups: Option<Option<Groups>>,
}

impl Model for Accounts {
    ghost use Rattle.module_acts.specs.Accounts.{Known};

    ghost Value = { Known };

    ghost view = { λ a. record { passwds = a.passwds; groups = a.groups } };
}

/// A user's account.
#[derive(Debug, Drop)]
pub enum Account {
    Found(Passwd),
    /// There is no such user.
    Missing,
    /// The file can't be read.
    Unreadable,
}

impl Accounts {
    /// Nothing has been read. It does not allocate.
    pub fn new() -> Self
        ensures { result ≡ nothing_known }
    {
        Accounts {
            passwds: None,
            groups: None,
        }
    }

    /// Reads `/etc/passwd`, unless it was read. If an allocation fails, nothing more is known than
    /// before, and no read failed. The files stay.
    pub fn read_passwds(
        &mut self,
        alloc: Global,
        vault: &mut dyn Vault,
        process: &Process,
    ) -> Result<(), NoMemory>
        ensures read { OnOk result (self.new.passwds ≢ None) }
        ensures groups { self.new.groups ≡ self.old.groups }
        ensures tells { vault_tells vault.new ≡ vault_tells vault.old }
        ensures told { IsTrue (vault_tells vault.old) →
            OnOk result (LooksTo reads_passwds (known_passwds self.new) process.now self.old
            (vault_holds vault.old) self.new (vault_holds vault.new)) }
        ensures err { OnErr result (self.new ≡ self.old) }
        ensures files { IsTrue (vault_tells vault.old) →
            (vault_holds vault.new).files ≡ (vault_holds vault.old).files }
        ensures faults { vault_faults vault.old ≤ vault_faults vault.new }
        ensures no_fault { OnErr result (vault_faults vault.new ≡ vault_faults vault.old) }
    {
        if self.passwds.is_none() {
            let content = read_content(
                alloc,
                vault,
                process.root.bytes(),
                b"/etc/passwd",
                ACCOUNT_LIMIT,
            )?;
            let found = passwds_in(content);
            fill(&mut self.passwds, found);
        }
        Ok(())
    }

    /// Reads `/etc/group`, unless it was read. If an allocation fails, nothing more is known than
    /// before, and no read failed. The files stay.
    pub fn read_groups(
        &mut self,
        alloc: Global,
        vault: &mut dyn Vault,
        process: &Process,
    ) -> Result<(), NoMemory>
        ensures read { OnOk result (self.new.groups ≢ None) }
        ensures passwds { self.new.passwds ≡ self.old.passwds }
        ensures tells { vault_tells vault.new ≡ vault_tells vault.old }
        ensures told { IsTrue (vault_tells vault.old) →
            OnOk result (LooksTo reads_groups (known_groups self.new) process.now self.old
            (vault_holds vault.old) self.new (vault_holds vault.new)) }
        ensures err { OnErr result (self.new ≡ self.old) }
        ensures files { IsTrue (vault_tells vault.old) →
            (vault_holds vault.new).files ≡ (vault_holds vault.old).files }
        ensures faults { vault_faults vault.old ≤ vault_faults vault.new }
        ensures no_fault { OnErr result (vault_faults vault.new ≡ vault_faults vault.old) }
    {
        if self.groups.is_none() {
            let content = read_content(
                alloc,
                vault,
                process.root.bytes(),
                b"/etc/group",
                ACCOUNT_LIMIT,
            )?;
            let found = groups_in(alloc, content)?;
            fill(&mut self.groups, found);
        }
        Ok(())
    }

    /// The entries of `/etc/group`, once it was read; None if it can't be.
    pub fn groups(&self) -> Option<&Groups>
        requires { self.now.groups ≢ None }
        ensures { option_copied result ≡ known_groups self.now }
    {
        match &self.groups {
            Some(Some(entries)) => Some(entries),
            Some(None) => None,
            None => unreachable!(),
        }
    }

    /// The entries of `/etc/passwd`, once it was read; None if it can't be.
    pub fn passwds(&self) -> Option<&PasswdFile>
        requires { self.now.passwds ≢ None }
        ensures { option_copied result ≡ known_passwds self.now }
    {
        match &self.passwds {
            Some(Some(entries)) => Some(entries),
            Some(None) => None,
            None => unreachable!(),
        }
    }

    /// A user's entry, once `/etc/passwd` was read: the first with that name. Also None if the file
    /// can't be read.
    pub fn entry(&self, alloc: Global, user: &[u8]) -> Result<Option<Passwd>, NoMemory>
        requires { self.now.passwds ≢ None }
        ensures { IfOk result (λ entry. entry ≡ entry_known user.now (known_passwds self.now)) }
    {
        match self.passwds() {
            Some(entries) => entry_of(alloc, user, entries),
            None => Ok(None),
        }
    }

    /// A user's account, once `/etc/passwd` was read: the first entry with that name.
    pub fn account(&self, alloc: Global, user: &[u8]) -> Result<Account, NoMemory>
        requires { self.now.passwds ≢ None }
        ensures { IfOk result (λ account. plain_account account
            ≡ account_in user.now (known_passwds self.now)) }
    {
        match &self.passwds {
            Some(Some(entries)) => Ok(account_among(entry_of(alloc, user, entries)?)),
            Some(None) => Ok(Account::Unreadable),
            None => unreachable!(),
        }
    }
}

fn account_among(entry: Option<Passwd>) -> Account
    ensures { plain_account result ≡ account_or_missing entry }
{
    match entry {
        Some(entry) => Account::Found(entry),
        None => Account::Missing,
    }
}

fn fill<T: Drop>(place: &mut Option<T>, value: T)
    ensures { place.new ≡ Some value }
{
    *place = Some(value);
}

// The entries of a password file, if it can be read.
fn passwds_in(content: Content) -> Option<PasswdFile>
    requires { IsWithin content account_limit }
    ensures { result ≡ passwds_in content }
{
    match content {
        Content::Absent | Content::Unreadable => None,
        Content::Holds(text) => passwds(text).ok(),
    }
}

// The entries of a group file, if it can be read.
fn groups_in(alloc: Global, content: Content) -> Result<Option<Groups>, NoMemory>
    requires { IsWithin content account_limit }
    ensures found { IfOk result (λ found. found ≡ groups_in content) }
    ensures err { OnErr result (content ≢ Content.Unreadable) }
{
    match content {
        Content::Absent | Content::Unreadable => Ok(None),
        Content::Holds(text) => match groups(alloc, text.bytes()) {
            Ok(entries) => Ok(Some(entries)),
            Err(Refuse::NoMemory) => Err(NoMemory),
            Err(Refuse::Named(_)) => Ok(None),
        },
    }
}

/// The shells of `/etc/shells`, by one call of `Vault`; None if it can't be read. If an allocation
/// fails, no read failed. The files stay.
pub fn read_shells(
    alloc: Global,
    vault: &mut dyn Vault,
    process: &Process,
) -> Result<Option<Texts>, NoMemory>
    ensures tells { vault_tells vault.new ≡ vault_tells vault.old }
    ensures told { IsTrue (vault_tells vault.old) →
        IfOk result (λ found. StepsTo reads_shells found process.now (vault_holds vault.old)
        (vault_holds vault.new)) }
    ensures files { IsTrue (vault_tells vault.old) →
        (vault_holds vault.new).files ≡ (vault_holds vault.old).files }
    ensures faults { vault_faults vault.old ≤ vault_faults vault.new }
    ensures no_fault { OnErr result (vault_faults vault.new ≡ vault_faults vault.old) }
{
    let content = read_content(
        alloc,
        vault,
        process.root.bytes(),
        b"/etc/shells",
        ACCOUNT_LIMIT,
    )?;
    let found = shells_in(alloc, content)?;
    Ok(found)
}

// The shells of a list, if it can be read.
fn shells_in(alloc: Global, content: Content) -> Result<Option<Texts>, NoMemory>
    requires { IsWithin content account_limit }
    ensures found { IfOk result (λ found. found ≡ shells_in content) }
    ensures err { OnErr result (content ≢ Content.Unreadable) }
{
    match content {
        Content::Absent | Content::Unreadable => Ok(None),
        Content::Holds(text) => {
            let listed = shells(alloc, text.bytes())?;
            Ok(Some(listed))
        }
    }
}
