ghost use Rattle.std.specs.Prelude.{◌≡◌};
ghost use Rattle.service_load.specs.FirstFault.{fault_at};
ghost use Rattle.service_load.specs.Answers.{IsRefusal};

use pam_base::{FaultKind, NoMemory, Refuse, Text};
use std::alloc::Global;

/// A fault of a configuration, and where it is.
#[derive(Debug, Drop)]
pub struct LoadFault {
    /// The file's name, without the root.
    pub file: Text,
    /// The number of a physical line, from 1; 0 if the fault concerns the whole file.
    pub line: u32,
    pub kind: FaultKind,
}

impl LoadFault {
    /// A file couldn't be read.
    pub(crate) fn unread(file: Text) -> LoadFault
        ensures { result ≡ fault_at file 0 FaultKind.ReadFailed }
    {
        LoadFault {
            file,
            line: 0,
            kind: FaultKind::ReadFailed,
        }
    }
}

/// The refusal for this fault; NoMemory if the file's name can't be copied.
pub(crate) fn refused(alloc: Global, file: &[u8], line: u32, kind: FaultKind) -> Refuse<LoadFault>
    ensures { IsRefusal result (fault_at file.now line kind) }
{
    match Text::from_bytes(alloc, file) {
        Ok(file) => Refuse::Named(LoadFault { file, line, kind }),
        Err(NoMemory) => Refuse::NoMemory,
    }
}
