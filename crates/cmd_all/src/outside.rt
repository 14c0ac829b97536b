use pam_outside::{Clock, Nap, Vault};
use pam_room::World;
use std::marker::PhantomData;

/// Names what a world shows, for contracts. Its field has no size: it names the objects that a world holds in boxes.
pub struct Outside {
    boxed: PhantomData<(Box<dyn Vault>, Box<dyn Clock>, Box<dyn Nap>)>,
}

/// What contracts see of a world before and after a command.
pub trait OutsideTold {
    ghost use Rattle.cmd_all.specs.Setup.{Around};

    /// Files, clock, sleep and what transactions share.
    type World;

    ghost around: { Self.World → Self.World → Around };
}

impl OutsideTold for Outside {
    ghost use Rattle.std.specs.Prelude.{◌≡◌, ◌&&◌};
    ghost use Rattle.pam_room.specs.Plain.{plain_world};

    type World = World;

    ghost around = { λ w v. record {
      tells = ((Vault-box w.vault).vault_tells w.vault.value
          && (Clock-box w.clock).clock_tells w.clock.value)
          && (Nap-box w.nap).nap_tells w.nap.value;
      tells_after = ((Vault-box v.vault).vault_tells v.vault.value
          && (Clock-box v.clock).clock_tells v.clock.value)
          && (Nap-box v.nap).nap_tells v.nap.value;
      old = plain_world (λ b. (Vault-box b).vault_holds b.value) (λ b.
          (Clock-box b).clock_holds b.value) (λ b. (Nap-box b).nap_holds b.value) w;
      new = plain_world (λ b. (Vault-box b).vault_holds b.value) (λ b.
          (Clock-box b).clock_holds b.value) (λ b. (Nap-box b).nap_holds b.value) v;
      is_kept = v ≡ w;
      files = record {
        tells = (Vault-box w.vault).vault_tells w.vault.value;
        tells_after = (Vault-box v.vault).vault_tells v.vault.value;
        old = (Vault-box w.vault).vault_holds w.vault.value;
        new = (Vault-box v.vault).vault_holds v.vault.value;
        faults_before = (Vault-box w.vault).vault_faults w.vault.value;
        faults_after = (Vault-box v.vault).vault_faults v.vault.value;
        is_kept = v.vault ≡ w.vault;
      };
      only_files = v ≡ record w { vault = v.vault };
    } };
}
