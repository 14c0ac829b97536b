use cmd_all::TimeOfDay;
use pam_room::conv_port::Conv;

/// How many transactions may be open at a time, each with a conversation.
pub(crate) const TRANSACTIONS: usize = 16;

/// A conversation for each transaction, one that is never used, and the time of day.
#[derive(Drop)]
pub struct Conversations {
    pub convs: Vec<Box<dyn Conv>>,
    pub term: Box<dyn Conv>,
    pub time: Option<Box<dyn TimeOfDay>>,
}

/// What contracts see of `Conversations`.
pub trait ConversationsTold {
    ghost use Rattle.std.specs.Prelude.{Bool};
    ghost use Rattle.cmd_all.specs.Setup.{Setup};

    /// Whether there is a time of day.
    ghost has_time: { Self → Bool };

    /// What a run gets of them, with the shipped modules and the waits of `served_wait`.
    ghost setup: { Self → Setup };
}

impl ConversationsTold for Conversations {
    ghost use Rattle.std.specs.Prelude.{◌≡◌, ◌&&◌, is_some, map};
    ghost use Rattle.std.specs.List.{list_all};
    ghost use Rattle.cmd_check.specs.pam_library.specs.Slots.{closed};
    ghost use Rattle.cmd_all.specs.Setup.{timing_of};
    ghost use Rattle.shipped_modules.specs.Shipped.{shipped_players};
    ghost use Rattle.frame_service.specs.Service.{served_wait};

    ghost has_time = { λ c. is_some c.time };

    ghost setup = { λ c. record {
      players = shipped_players;
      slots = map (λ b. closed ((Conv-box b).conv_holds b.value)) c.convs.items;
      gives = λ number. number ≡ served_wait;
      moments = (timing_of (λ b. (TimeOfDay-box b).time_tells b.value) (λ b.
          (TimeOfDay-box b).time_gives b.value) c.time).moments;
      tells = (timing_of (λ b. (TimeOfDay-box b).time_tells b.value) (λ b.
          (TimeOfDay-box b).time_gives b.value) c.time).tells
          && list_all (λ b. (Conv-box b).conv_tells b.value) c.convs.items;
    } };
}
