use crate::library::Library;
use crate::slot::Slot;
use conv_port::Conv;
use fail_delay::DelayRule;
use pam_handle::Gear;
use pam_handle::pam_room::{Module, World};
use pam_outside::{Clock, Nap, Vault};
use std::marker::PhantomData;

/// Names what a library and its world show together, for contracts. Its field has no size; it names
/// the objects that both hold in boxes.
pub struct Session {
    boxed: PhantomData<
        (
            Box<dyn Conv>,
            Box<dyn Vault>,
            Box<dyn Clock>,
            Box<dyn Nap>,
            Box<dyn Module>,
            DelayRule,
        ),
    >,
}

/// What contracts see of a library and its world.
pub trait Told {
    ghost use Rattle.pam_library.specs.Seen.{SessionSeen};

    /// The transactions, their modules and conversations.
    type Library;

    /// What they share.
    type World;

    ghost seen: { Self.Library → Self.World → SessionSeen };
}

impl Told for Session {
    ghost use Rattle.std.specs.Prelude.{◌&&◌, map};
    ghost use Rattle.fail_delay.specs.DelayFn.{IsNumberGiven};
    ghost use Rattle.pam_handle.specs.pam_room.specs.Module.{player_of};
    ghost use Rattle.pam_handle.specs.pam_room.specs.Plain.{plain_world};
    ghost use Rattle.pam_library.specs.Plain.{gear_in, slots_in, tells_in};

    type Library = Library;

    type World = World;

    ghost seen = { λ l w. record {
      players = map (player_of (λ b. (Module-box b).label b.value) (λ b.
          (Module-box b).plays b.value) (λ b. (Module-box b).note b.value) (λ b.
          (Module-box b).breaks b.value)) (gear_in l).mods.items;
      slots = slots_in (λ b. (Conv-box b).conv_holds b.value) l;
      world = plain_world (λ b. (Vault-box b).vault_holds b.value) (λ b.
          (Clock-box b).clock_holds b.value) (λ b. (Nap-box b).nap_holds b.value) w;
      tells = tells_in (λ b. (Conv-box b).conv_tells b.value) l;
      world_tells = ((Vault-box w.vault).vault_tells w.vault.value
          && (Clock-box w.clock).clock_tells w.clock.value)
          && (Nap-box w.nap).nap_tells w.nap.value;
      gives = IsNumberGiven (DelayRule.post (gear_in l).delay.rule);
      faults = (Vault-box w.vault).vault_faults w.vault.value;
    } };
}

/// What contracts see of modules and delay function, a slot and the world.
pub trait StepTold {
    ghost use Rattle.pam_library.specs.InPlace.{SlotSeen};

    type Gear;

    type Slot;

    type World;

    ghost seen: { Self.Gear → Self.Slot → Self.World → SlotSeen };
}

impl StepTold for Session {
    ghost use Rattle.std.specs.Prelude.{◌&&◌, map};
    ghost use Rattle.fail_delay.specs.DelayFn.{IsNumberGiven};
    ghost use Rattle.pam_handle.specs.pam_room.specs.Module.{player_of};
    ghost use Rattle.pam_handle.specs.pam_room.specs.Plain.{plain_world};
    ghost use Rattle.pam_library.specs.Plain.{plain_slot, slot_tells};

    type Gear = Gear;

    type Slot = Slot;

    type World = World;

    ghost seen = { λ g s w. record {
      players = map (player_of (λ b. (Module-box b).label b.value) (λ b.
          (Module-box b).plays b.value) (λ b. (Module-box b).note b.value) (λ b.
          (Module-box b).breaks b.value)) g.mods.items;
      gives = IsNumberGiven (DelayRule.post g.delay.rule);
      slot = plain_slot (λ b. (Conv-box b).conv_holds b.value) s;
      world = plain_world (λ b. (Vault-box b).vault_holds b.value) (λ b.
          (Clock-box b).clock_holds b.value) (λ b. (Nap-box b).nap_holds b.value) w;
      tells = slot_tells (λ b. (Conv-box b).conv_tells b.value) s;
      world_tells = ((Vault-box w.vault).vault_tells w.vault.value
          && (Clock-box w.clock).clock_tells w.clock.value)
          && (Nap-box w.nap).nap_tells w.nap.value;
      faults = (Vault-box w.vault).vault_faults w.vault.value;
    } };
}
