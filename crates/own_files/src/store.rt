ghost use Rattle.std.specs.Prelude.{◌≡◌, ◌≢◌, ◌≤◌, false, true, length, IsTrue, IfOk, Err};
ghost use Rattle.pam_outside.specs.Counts.{Rose, next_count};
ghost use Rattle.pam_outside.specs.Files.{TellsDirectory, counted};
ghost use Rattle.own_files.specs.Own.{IsOwn, IsShown, IsUnchanged, ReadsOther, ReadsOwn, ReadsShown, files_for};
ghost use Rattle.own_files.specs.Entries.{has_entry};

use crate::entries::has_entry;
use crate::lines::own_lines;
use crate::paths::{is_of_shadow, is_shadow};
use pam_base::Text;
use pam_outside::{FileLock, LockKind, ReplaceFault, Vault, VaultFault};
use std::alloc::Global;
use std::marker::Model;
use std::snapshot::Snapshot;

/// The files of another store, as far as a user may see them who has a password in `/etc/shadow`: of that file only his own
/// lines, and no other file whose path has `shadow` in it, or that has a line of the form of an entry. Nothing is ever
/// replaced or locked. Only its failures are modelled; `read` says what it shows of a modelled store below it.
#[derive(Drop)]
pub struct OwnFiles<V: Vault> {
    // Only for contracts: the store as it was handed in.
    begun: Snapshot<V>,
    inner: V,
    /// The user; if it is empty, no line is his.
    user: Text,
    faults: u64,
}

impl<V: Vault> Model for OwnFiles<V> {
    ghost use Rattle.own_files.specs.Own.{IsUnchanged, OwnStore};

    ghost Value = { OwnStore V };

    ghost view = { λ o. record {
      begun = o.begun.value;
      inner = o.inner;
      user = o.user;
      faults = o.faults;
    } };

    ghost invariant = { λ o. IsUnchanged V.vault_tells V.vault_holds o.begun.value o.inner };
}

impl<V: Vault> OwnFiles<V> {
    /// The files of `inner` for a user. It hasn't failed yet.
    pub fn new(inner: V, user: Text) -> Self
        ensures { result ≡ record { begun = inner; inner = inner; user = user; faults = 0 } }
    {
        OwnFiles {
            begun: Snapshot::of(&inner),
            inner,
            user,
            faults: 0,
        }
    }

    /// The user. And a law: whatever was called with it, in whatever order, the store below has the files and the locks
    /// that it had when it was handed in.
    pub fn user(&self) -> &[u8]
        ensures user { result.now ≡ self.now.user }
        ensures unchanged { IsUnchanged V.vault_tells V.vault_holds self.now.begun
            self.now.inner }
    {
        self.user.bytes()
    }

    // Reads the file, and shows of it what the user may see.
    fn shown(&mut self, alloc: Global, path: &[u8], limit: u32) -> Result<Text, VaultFault>
        ensures bound { IfOk result (λ text. length text ≤ limit) }
        ensures user { self.new.user ≡ self.old.user }
        ensures begun { self.new.begun ≡ self.old.begun }
        ensures faults { self.new.faults ≡ self.old.faults }
        ensures shown { IfOk result (λ text. IsShown self.old.user path.now text) }
        ensures shows { IsTrue (V.vault_tells self.old.inner) →
            ReadsShown result self.old.user path.now limit (V.vault_holds self.old.inner) }
        ensures files { IsTrue (V.vault_tells self.old.inner) →
            (V.vault_holds self.new.inner).files ≡ (V.vault_holds self.old.inner).files }
    {
        if is_shadow(path) {
            return own_part(alloc, &mut self.inner, self.user.bytes(), path, limit);
        }
        if is_of_shadow(path) {
            return Err(VaultFault::Failed);
        }
        other_file(alloc, &mut self.inner, path, limit)
    }
}

// A file without the form of the shadow file.
fn other_file<V: Vault>(
    alloc: Global,
    inner: &mut V,
    path: &[u8],
    limit: u32,
) -> Result<Text, VaultFault>
    ensures bound { IfOk result (λ text. length text ≤ limit) }
    ensures other { IfOk result (λ text. has_entry text ≡ false) }
    ensures told { IsTrue (V.vault_tells inner.old) →
        ReadsOther result path.now limit (V.vault_holds inner.old) }
    ensures tells { V.vault_tells inner.new ≡ V.vault_tells inner.old }
    ensures counts { IsTrue (V.vault_tells inner.old) →
        V.vault_holds inner.new ≡ counted (V.vault_holds inner.old) }
{
    let text = inner.read(alloc, path, limit)?;
    if has_entry(text.bytes()) {
        return Err(VaultFault::Failed);
    }
    Ok(text)
}

// The lines of this user in the shadow file at this path.
fn own_part<V: Vault>(
    alloc: Global,
    inner: &mut V,
    user: &[u8],
    path: &[u8],
    limit: u32,
) -> Result<Text, VaultFault>
    ensures bound { IfOk result (λ text. length text ≤ limit) }
    ensures own { IfOk result (λ text. IsOwn user.now text) }
    ensures told { IsTrue (V.vault_tells inner.old) →
        ReadsOwn result user.now path.now limit (V.vault_holds inner.old) }
    ensures tells { V.vault_tells inner.new ≡ V.vault_tells inner.old }
    ensures counts { IsTrue (V.vault_tells inner.old) →
        V.vault_holds inner.new ≡ counted (V.vault_holds inner.old) }
{
    let whole = inner.read(alloc, path, limit)?;
    let own = own_lines(alloc, user, whole.bytes())?;
    if own.len() > limit as usize {
        return Err(VaultFault::TooLong);
    }
    Ok(own)
}

impl<V: Vault> Vault for OwnFiles<V> {
    ghost vault_tells = { λ o. false };

    // never modelled: it names the user alone
    ghost vault_holds = { λ o. files_for o.user };

    ghost vault_faults = { λ o. o.faults };

    /// The shadow file's lines of the user, if that file has at most `limit` bytes. Failed is returned for every other
    /// file of the group `shadow`, for a file at another path that has a line of the form of an entry, such as a link to
    /// the shadow file, and as the store below returns it.
    fn read(&mut self, alloc: Global, path: &[u8], limit: u32) -> Result<Text, VaultFault>
        ensures bound { IfOk result (λ text. length text ≤ limit) }
        ensures faults { self.old.faults ≤ self.new.faults }
        ensures failed { result ≡ Err VaultFault.Failed → Rose self.old.faults self.new.faults }
        ensures no_fault { result ≢ Err VaultFault.Failed → self.new.faults ≡ self.old.faults }
        ensures user { self.new.user ≡ self.old.user }
        ensures begun { self.new.begun ≡ self.old.begun }
        ensures shown { IfOk result (λ text. IsShown self.old.user path.now text) }
        ensures shows { IsTrue (V.vault_tells self.old.inner) →
            ReadsShown result self.old.user path.now limit (V.vault_holds self.old.inner) }
        ensures files { IsTrue (V.vault_tells self.old.inner) →
            (V.vault_holds self.new.inner).files ≡ (V.vault_holds self.old.inner).files }
    {
        let result = self.shown(alloc, path, limit);
        if let Err(VaultFault::Failed) = result {
            self.faults = self.faults.saturating_add(1);
        }
        result
    }

    /// As the store below says.
    fn folder(&mut self, alloc: Global, path: &[u8]) -> Result<bool, ReplaceFault>
        ensures faults { self.old.faults ≤ self.new.faults }
        ensures failed { result ≡ Err ReplaceFault.Failed → Rose self.old.faults self.new.faults }
        ensures no_fault { result ≢ Err ReplaceFault.Failed → self.new.faults ≡ self.old.faults }
        ensures user { self.new.user ≡ self.old.user }
        ensures begun { self.new.begun ≡ self.old.begun }
        ensures shows { IsTrue (V.vault_tells self.old.inner) →
            TellsDirectory result path.now (V.vault_holds self.old.inner) }
        ensures files { IsTrue (V.vault_tells self.old.inner) →
            (V.vault_holds self.new.inner).files ≡ (V.vault_holds self.old.inner).files }
    {
        let result = self.inner.folder(alloc, path);
        if let Err(ReplaceFault::Failed) = result {
            self.faults = self.faults.saturating_add(1);
        }
        result
    }

    /// Failed is returned, and the store below isn't called.
    fn replace(&mut self, _alloc: Global, _path: &[u8], _bytes: &[u8]) -> Result<(), ReplaceFault>
        ensures faults { self.old.faults ≤ self.new.faults }
        ensures refused { result ≡ Err ReplaceFault.Failed }
        ensures untouched { self.new ≡ record self.old { faults = next_count self.old.faults } }
    {
        self.faults = self.faults.saturating_add(1);
        Err(ReplaceFault::Failed)
    }

    /// Failed is returned, and the store below isn't called: a lock would be a file that is made, and would keep others out.
    fn hold(
        &mut self,
        _alloc: Global,
        _path: &[u8],
        _kind: LockKind,
    ) -> Result<FileLock, ReplaceFault>
        ensures held { IfOk result (λ held. held ≡ true) }
        ensures faults { self.old.faults ≤ self.new.faults }
        ensures refused { result ≡ Err ReplaceFault.Failed }
        ensures untouched { self.new ≡ record self.old { faults = next_count self.old.faults } }
    {
        self.faults = self.faults.saturating_add(1);
        Err(ReplaceFault::Failed)
    }

    /// Nothing happens, since no lock was taken here.
    fn let_go(&mut self, _held: FileLock)
        ensures untouched { self.new ≡ self.old }
    {}
}
