use crate::room::Room;
use crate::world::World;
use conv_port::Conv;
use pam_outside::{Clock, Nap, Vault};
use std::marker::PhantomData;

/// Names what a room and a world show together, for contracts. Its field has no size: it names the objects that both
/// hold in boxes.
pub struct Both {
    boxed: PhantomData<(Box<dyn Conv>, Box<dyn Vault>, Box<dyn Clock>, Box<dyn Nap>)>,
}

/// What contracts see of a room and a world.
pub trait Told {
    ghost use Rattle.pam_room.specs.State.{Seen};

    /// A transaction and its conversation.
    type Room;

    /// What all transactions share.
    type World;

    ghost seen: { Self.Room → Self.World → Seen };
}

impl Told for Both {
    ghost use Rattle.std.specs.Prelude.{◌&&◌};
    ghost use Rattle.pam_room.specs.State.{state_of};
    ghost use Rattle.pam_room.specs.Plain.{plain_room, plain_world};

    type Room = Room;

    type World = World;

    ghost seen = { λ r w. record {
      state = state_of (plain_room (λ b. (Conv-box b).conv_holds b.value) r)
          (plain_world (λ b. (Vault-box b).vault_holds b.value) (λ b.
          (Clock-box b).clock_holds b.value) (λ b. (Nap-box b).nap_holds b.value) w);
      lent_tells = (Conv-box r.conv).conv_tells r.conv.value
          && ((Vault-box w.vault).vault_tells w.vault.value
          && (Clock-box w.clock).clock_tells w.clock.value);
      tells = (Conv-box r.conv).conv_tells r.conv.value
          && (((Vault-box w.vault).vault_tells w.vault.value
          && (Clock-box w.clock).clock_tells w.clock.value)
          && (Nap-box w.nap).nap_tells w.nap.value);
    } };
}
