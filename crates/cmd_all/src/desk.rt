ghost use Rattle.std.specs.Prelude.{◌≡◌, ◌<◌, length};
ghost use Rattle.cmd_all.specs.Setup.{IsSameSetup};

use cmd_run::TimeOfDay;
use fail_delay::DelayRule;
use pam_room::Module;
use pam_room::conv_port::Conv;
use std::mem;

/// The inputs of the program, which an application provides: the modules, a conversation for each
/// of sixteen transactions, the conversation at the terminal for a login, its delay function, and the time of day. Without
/// a time of day the world's clock changes only by what a script sets.
#[derive(Drop)]
pub struct Desk {
    pub mods: Vec<Box<dyn Module>>,
    pub convs: Vec<Box<dyn Conv>>,
    pub term: Box<dyn Conv>,
    pub delay: DelayRule,
    pub time: Option<Box<dyn TimeOfDay>>,
}

/// What contracts see of a `Desk`.
pub trait DeskTold {
    ghost use Rattle.cmd_all.specs.Setup.{Setup};

    /// The part of it that transactions get.
    ghost given: { Self → Setup };

    /// The same, with the terminal's conversation in the first slot.
    ghost at_terminal: { Self → Setup };
}

impl DeskTold for Desk {
    ghost use Rattle.std.specs.Prelude.{◌&&◌, map, slice_set};
    ghost use Rattle.std.specs.List.{list_all};
    ghost use Rattle.fail_delay.specs.DelayFn.{IsNumberGiven};
    ghost use Rattle.pam_library.specs.Slots.{closed};
    ghost use Rattle.cmd_run.specs.Time.{timing_of};
    ghost use Rattle.pam_room.specs.Module.{player_of};

    ghost given = { λ d. record {
      players = map (player_of (λ b. (Module-box b).label b.value) (λ b.
          (Module-box b).plays b.value) (λ b. (Module-box b).note b.value) (λ b.
          (Module-box b).breaks b.value)) d.mods.items;
      slots = map (λ b. closed ((Conv-box b).conv_holds b.value)) d.convs.items;
      gives = IsNumberGiven (DelayRule.post d.delay);
      moments = (timing_of (λ b. (TimeOfDay-box b).time_tells b.value) (λ b.
          (TimeOfDay-box b).time_gives b.value) d.time).moments;
      tells = (timing_of (λ b. (TimeOfDay-box b).time_tells b.value) (λ b.
          (TimeOfDay-box b).time_gives b.value) d.time).tells
          && list_all (λ b. (Conv-box b).conv_tells b.value) d.convs.items;
    } };

    ghost at_terminal = { λ d. record {
      players = map (player_of (λ b. (Module-box b).label b.value) (λ b.
          (Module-box b).plays b.value) (λ b. (Module-box b).note b.value) (λ b.
          (Module-box b).breaks b.value)) d.mods.items;
      slots = map (λ b. closed ((Conv-box b).conv_holds b.value))
          (slice_set d.convs.items 0 d.term);
      gives = IsNumberGiven (DelayRule.post d.delay);
      moments = (timing_of (λ b. (TimeOfDay-box b).time_tells b.value) (λ b.
          (TimeOfDay-box b).time_gives b.value) d.time).moments;
      tells = (timing_of (λ b. (TimeOfDay-box b).time_tells b.value) (λ b.
          (TimeOfDay-box b).time_gives b.value) d.time).tells
          && list_all (λ b. (Conv-box b).conv_tells b.value) (slice_set d.convs.items 0 d.term);
    } };
}

/// Puts the terminal's conversation in the first slot.
pub(crate) fn with_terminal(desk: Desk) -> Desk
    requires { 0 < length desk.convs.items }
    ensures setup { IsSameSetup (⟦<Desk as DeskTold>⟧.given result)
        (⟦<Desk as DeskTold>⟧.at_terminal desk) }
    ensures sixteen { length result.convs.items ≡ length desk.convs.items }
    ensures mods { result.mods ≡ desk.mods }
    ensures delay { result.delay ≡ desk.delay }
{
    let Desk {
        mods,
        convs,
        term,
        delay,
        time,
    } = desk;
    let mut convs = convs;
    let queue = mem::replace(&mut convs[0], term);
    Desk {
        mods,
        convs,
        term: queue,
        delay,
        time,
    }
}
