ghost use Rattle.std.specs.Prelude.{◌≡◌, []};

use data_cleanup::Ledger;
use pam_base::Text;
use std::alloc::Global;

/// What all transactions of a process share in memory.
#[derive(Drop)]
pub struct Process {
    pub ledger: Ledger,
    /// The directory that paths of the configuration and of arguments are below.
    pub root: Text,
    /// The user ID of the calling process.
    pub caller: u32,
}

impl Process {
    /// A process in which no data has been set, with an empty cleanup log. It does not allocate.
    pub fn new(alloc: Global, root: Text, caller: u32) -> Self
        ensures { result ≡ record {
          ledger = record { births = []; filed = [] };
          root = root;
          caller = caller;
        } }
    {
        Process {
            ledger: Ledger::new(alloc),
            root,
            caller,
        }
    }
}
