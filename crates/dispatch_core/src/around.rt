use pam_room::conv_port::Conv;
use pam_room::pam_outside::{Clock, Nap, Vault};
use pam_room::{Room, World};
use std::marker::PhantomData;

/// Names what the modules, a room and a world show together, for contracts. Its field has no size; it names the objects
/// that room and world hold in boxes.
pub struct Pass {
    boxed: PhantomData<(Box<dyn Conv>, Box<dyn Vault>, Box<dyn Clock>, Box<dyn Nap>)>,
}

/// What contracts see around a pass: of the modules, and of a room and a world before it and after it.
pub trait PassTold {
    ghost use Rattle.std.specs.Prelude.{List};
    ghost use Rattle.pam_room.specs.Module.{Player};
    ghost use Rattle.dispatch_core.specs.Around.{Around};

    type Room;

    type World;

    ghost around: { List Player → Self.Room → Self.Room → Self.World → Self.World → Around };
}

impl PassTold for Pass {
    ghost use Rattle.std.specs.Prelude.{◌&&◌};
    ghost use Rattle.pam_room.specs.Plain.{plain_room, plain_world};
    ghost use Rattle.dispatch_core.specs.Around.{around};

    type Room = Room;

    type World = World;

    ghost around = { around (λ r. (Conv-box r.conv).conv_tells r.conv.value) (plain_room (λ b.
        (Conv-box b).conv_holds b.value)) (λ w. ((Vault-box w.vault).vault_tells w.vault.value
        && (Clock-box w.clock).clock_tells w.clock.value)
        && (Nap-box w.nap).nap_tells w.nap.value) (plain_world (λ b.
        (Vault-box b).vault_holds b.value) (λ b. (Clock-box b).clock_holds b.value) (λ b.
        (Nap-box b).nap_holds b.value)) };
}
