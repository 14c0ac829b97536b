use crate::gear::Gear;
use crate::handle::Handle;
use dispatch_core::conv_port::Conv;
use dispatch_core::fail_delay::DelayRule;
use dispatch_core::pam_outside::{Clock, Nap, Vault};
use dispatch_core::pam_room::{Module, World};
use std::marker::PhantomData;

/// Names what the modules, a transaction and the world show together, for contracts. Its field has no size; it names
/// the objects that they hold in boxes.
pub struct Calls {
    boxed: PhantomData<
        (
            Box<dyn Conv>,
            Box<dyn Vault>,
            Box<dyn Clock>,
            Box<dyn Nap>,
            Box<dyn Module>,
            DelayRule,
        ),
    >,
}

/// What contracts see of modules and delay function, a transaction and the world, and around a call of it.
pub trait CallTold {
    ghost use Rattle.pam_handle.specs.Around.{Around, CallSeen};

    type Gear;

    type Handle;

    type World;

    ghost seen: { Self.Gear → Self.Handle → Self.World → CallSeen };

    ghost around: { Self.Gear → Self.Handle → Self.Handle → Self.World → Self.World → Around };
}

impl CallTold for Calls {
    ghost use Rattle.std.specs.Prelude.{◌&&◌, map};
    ghost use Rattle.dispatch_core.specs.fail_delay.specs.DelayFn.{IsNumberGiven};
    ghost use Rattle.dispatch_core.specs.pam_room.specs.Module.{player_of};
    ghost use Rattle.dispatch_core.specs.pam_room.specs.Plain.{plain_room, plain_world};
    ghost use Rattle.pam_handle.specs.Around.{around, call_seen};

    type Gear = Gear;

    type Handle = Handle;

    type World = World;

    ghost seen = { λ g. call_seen (λ r. (Conv-box r.conv).conv_tells r.conv.value) (plain_room (λ b.
        (Conv-box b).conv_holds b.value)) (λ w. ((Vault-box w.vault).vault_tells w.vault.value
        && (Clock-box w.clock).clock_tells w.clock.value)
        && (Nap-box w.nap).nap_tells w.nap.value) (λ w.
        (Nap-box w.nap).nap_tells w.nap.value) (plain_world (λ b.
        (Vault-box b).vault_holds b.value) (λ b. (Clock-box b).clock_holds b.value) (λ b.
        (Nap-box b).nap_holds b.value)) (map (player_of (λ b. (Module-box b).label b.value) (λ b.
        (Module-box b).plays b.value) (λ b. (Module-box b).note b.value) (λ b.
        (Module-box b).breaks b.value)) g.mods.items)
        (IsNumberGiven (DelayRule.post g.delay.rule)) };

    ghost around = { λ g. around (λ r. (Conv-box r.conv).conv_tells r.conv.value) (plain_room (λ b.
        (Conv-box b).conv_holds b.value)) (λ w. ((Vault-box w.vault).vault_tells w.vault.value
        && (Clock-box w.clock).clock_tells w.clock.value)
        && (Nap-box w.nap).nap_tells w.nap.value) (λ w.
        (Nap-box w.nap).nap_tells w.nap.value) (plain_world (λ b.
        (Vault-box b).vault_holds b.value) (λ b. (Clock-box b).clock_holds b.value) (λ b.
        (Nap-box b).nap_holds b.value)) (map (player_of (λ b. (Module-box b).label b.value) (λ b.
        (Module-box b).plays b.value) (λ b. (Module-box b).note b.value) (λ b.
        (Module-box b).breaks b.value)) g.mods.items)
        (IsNumberGiven (DelayRule.post g.delay.rule)) };
}
