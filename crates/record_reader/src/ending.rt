use pam_base::{Failed, NoMemory};

/// How a stream of items ended.
#[derive(Clone, Copy, Debug, PartialEq, Eq)]
pub enum Ending<K> {
    /// The source has ended, and every item was applied.
    Done,
    /// The source failed; every item before that was applied.
    ReadFault,
    /// An item was refused; every item before it was applied.
    Refused(K),
}

/// Why a run stopped before the stream ended. Nothing more is written.
#[derive(Clone, Copy, Debug, PartialEq, Eq)]
pub enum Stop {
    NoMemory,
    WriteFault,
}

impl From<NoMemory> for Stop {
    ghost use Rattle.std.specs.Prelude.{◌≡◌};
    ghost use Rattle.record_reader.specs.declared.ending.Stop.{Stop};
    ghost use Rattle.record_reader.specs.declared.ending.Stop.TheVariants as stops;

    ghost from_gives = { λ _ e. e ≡ stops.NoMemory };

    fn from(_: NoMemory) -> Self {
        Stop::NoMemory
    }
}

/// A failed write stops a run, so `?` works for calls that write.
impl From<Failed> for Stop {
    ghost use Rattle.std.specs.Prelude.{◌≡◌};
    ghost use Rattle.record_reader.specs.declared.ending.Stop.{Stop};
    ghost use Rattle.record_reader.specs.declared.ending.Stop.TheVariants as stops;

    ghost from_gives = { λ _ e. e ≡ stops.WriteFault };

    fn from(_: Failed) -> Self {
        Stop::WriteFault
    }
}
