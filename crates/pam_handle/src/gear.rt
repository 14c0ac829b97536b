ghost use Rattle.std.specs.Prelude.{◌<◌, ◌^◌, length};

use dispatch_core::fail_delay::DelayFn;
use dispatch_core::pam_room::Module;

/// What an application supplies to all its transactions: the modules, which a line finds by name, and its delay
/// function (PAM_FAIL_DELAY of `pam_fail_delay(3)`).
#[derive(Drop)]
pub struct Gear {
    pub mods: Vec<Box<dyn Module>>,
    pub delay: DelayFn,
    ghost few: { length mods.items < 2 ^ 32 },
}

/// Names the modules, for contracts.
pub trait GearTold {
    ghost use Rattle.std.specs.Prelude.{List};
    ghost use Rattle.dispatch_core.specs.pam_room.specs.Module.{Player};

    /// The meanings of its modules, in order.
    ghost players: { Self → List Player };
}

impl GearTold for Gear {
    ghost use Rattle.std.specs.Prelude.{map};
    ghost use Rattle.dispatch_core.specs.pam_room.specs.Module.{player_of};

    ghost players = { λ g. map (player_of (λ b. (Module-box b).label b.value) (λ b.
        (Module-box b).plays b.value) (λ b. (Module-box b).note b.value) (λ b.
        (Module-box b).breaks b.value)) g.mods.items };
}
