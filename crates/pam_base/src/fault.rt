ghost use Rattle.std.specs.Prelude.{◌≡◌};
ghost use Rattle.pam_base.specs.Fault.{fault_number, fault_name, script_fault_number, script_fault_name};

use crate::word::Word;
use std::alloc::{AllocError, AllocFailed};

/// Out of memory.
#[derive(Clone, Copy, Debug, PartialEq, Eq)]
pub struct NoMemory;

/// The item may not be read or set by this caller (`PAM_BAD_ITEM`).
#[derive(Clone, Copy, Debug, PartialEq, Eq)]
pub struct BadItem;

/// The outside failed: a device, a directory or a stream.
#[derive(Clone, Copy, Debug, PartialEq, Eq)]
pub struct Failed;

/// The conversation gave no reply (`PAM_CONV_ERR`).
#[derive(Clone, Copy, Debug, PartialEq, Eq)]
pub struct ConvErr;

/// No module data of this name are set (`PAM_NO_MODULE_DATA`).
#[derive(Clone, Copy, Debug, PartialEq, Eq)]
pub struct NoModuleData;

/// Why a call was refused: out of memory, or one of its own faults.
#[derive(Clone, Copy, Debug, PartialEq, Eq)]
pub enum Refuse<F> {
    NoMemory,
    Named(F),
}

/// What is wrong with a configuration. The numbers are printed.
#[derive(Clone, Copy, Debug, PartialEq, Eq)]
pub enum FaultKind {
    /// A bracket is still open at the end of its line.
    OpenBracket = 1,
    NulByte = 2,
    /// A line, with those joined to it, has more than 4,096 bytes.
    RuleTooLong = 3,
    /// A file has more than 65,536 bytes.
    FileTooLong = 4,
    /// A control isn't a keyword, or an entry in its brackets isn't `name=action`.
    BadControl = 5,
    /// A name in brackets is neither `default` nor the word of a code.
    BadReturnName = 6,
    /// An action in brackets is neither a keyword nor a number from 1 to 255.
    BadAction = 7,
    /// A jump over 0 lines.
    ZeroJump = 8,
    /// The first field of a rule isn't a type (`auth account password session`).
    BadType = 9,
    /// A rule ends before its next field.
    MissingField = 10,
    /// A file that a rule includes doesn't exist.
    IncludeAbsent = 11,
    /// A file would be the seventeenth in a chain of includes.
    TooDeep = 12,
    /// A stack would have more than 4,096 lines.
    TooManyLines = 13,
    /// More than 256 files would be opened.
    TooManyFiles = 14,
    /// Neither the service nor `other` is configured.
    NoService = 15,
    /// A file of the configuration couldn't be read.
    ReadFailed = 16,
}

/// What is wrong with a line of a script.
#[derive(Clone, Copy, Debug, PartialEq, Eq)]
pub enum ScriptKind {
    /// A word doesn't have the right form, or there are too few or too many words.
    BadWord = 1,
    /// A number doesn't have the right form.
    BadNumeral = 2,
    /// The line has more than 512 bytes.
    LineTooLong = 3,
    /// The script has more than 65,536 lines.
    TooManyLines = 4,
}

impl From<AllocError> for NoMemory {
    fn from(_: AllocError) -> Self {
        NoMemory
    }
}

impl<T: Drop> From<AllocFailed<T>> for NoMemory {
    fn from(_: AllocFailed<T>) -> Self {
        NoMemory
    }
}

impl<F> From<NoMemory> for Refuse<F> {
    ghost use Rattle.std.specs.Prelude.{◌≡◌};
    ghost use Rattle.pam_base.specs.declared.fault.Refuse.{Refuse};
    ghost use Rattle.pam_base.specs.declared.fault.Refuse.TheVariants as refusals;

    ghost from_gives = { λ _ e. e ≡ refusals.NoMemory };

    fn from(_: NoMemory) -> Self {
        Refuse::NoMemory
    }
}

impl FaultKind {
    /// The number that is printed, from 1 to 16.
    pub fn number(self) -> u32
        ensures { result ≡ fault_number self }
    {
        self as u32
    }
}

impl Word for FaultKind {
    ghost spelling = { fault_name };

    fn word(self) -> &'static str {
        match self {
            FaultKind::OpenBracket => "OpenBracket",
            FaultKind::NulByte => "NulByte",
            FaultKind::RuleTooLong => "RuleTooLong",
            FaultKind::FileTooLong => "FileTooLong",
            FaultKind::BadControl => "BadControl",
            FaultKind::BadReturnName => "BadReturnName",
            FaultKind::BadAction => "BadAction",
            FaultKind::ZeroJump => "ZeroJump",
            FaultKind::BadType => "BadType",
            FaultKind::MissingField => "MissingField",
            FaultKind::IncludeAbsent => "IncludeAbsent",
            FaultKind::TooDeep => "TooDeep",
            FaultKind::TooManyLines => "TooManyLines",
            FaultKind::TooManyFiles => "TooManyFiles",
            FaultKind::NoService => "NoService",
            FaultKind::ReadFailed => "ReadFailed",
        }
    }
}

impl ScriptKind {
    /// The number that is printed.
    pub fn number(self) -> u32
        ensures { result ≡ script_fault_number self }
    {
        self as u32
    }
}

impl Word for ScriptKind {
    ghost spelling = { script_fault_name };

    fn word(self) -> &'static str {
        match self {
            ScriptKind::BadWord => "BadWord",
            ScriptKind::BadNumeral => "BadNumeral",
            ScriptKind::LineTooLong => "LineTooLong",
            ScriptKind::TooManyLines => "TooManyLines",
        }
    }
}
