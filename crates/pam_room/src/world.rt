use crate::process::Process;
use pam_outside::{Clock, Nap, Vault};

/// What all transactions share.
#[derive(Drop)]
pub struct World {
    pub vault: Box<dyn Vault>,
    pub clock: Box<dyn Clock>,
    pub nap: Box<dyn Nap>,
    pub process: Process,
}

/// Names what a world holds, and what contracts know of its objects.
pub trait WorldTold {
    ghost use Rattle.std.specs.Prelude.{Bool};
    ghost use Rattle.pam_room.specs.State.{PlainWorld};

    /// Whether files, clock and sleep are modelled.
    ghost tells: { Self → Bool };

    ghost plain: { Self → PlainWorld };
}

impl WorldTold for World {
    ghost use Rattle.std.specs.Prelude.{◌&&◌};
    ghost use Rattle.pam_room.specs.Plain.{plain_world};

    ghost tells = { λ w. ((Vault-box w.vault).vault_tells w.vault.value
        && (Clock-box w.clock).clock_tells w.clock.value)
        && (Nap-box w.nap).nap_tells w.nap.value };

    ghost plain = { plain_world (λ b. (Vault-box b).vault_holds b.value) (λ b.
        (Clock-box b).clock_holds b.value) (λ b. (Nap-box b).nap_holds b.value) };
}
