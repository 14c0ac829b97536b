ghost use Rattle.std.specs.Prelude.{◌≡◌, if◌then◌else◌};
ghost use Rattle.service_load.specs.Answers.{IsRefusal};
ghost use Rattle.service_load.specs.FirstFault.{opening_fault};
ghost use Rattle.service_load.specs.Loading.{opener_of};
ghost use Rattle.service_load.specs.Order.{as_last, as_other};

use crate::load_fault::{LoadFault, refused};
use crate::rule_file::RuleFile;
use pam_base::{FaultKind, Refuse};
use std::alloc::Global;

/// Why a file is opened.
#[derive(Clone, Copy)]
pub(crate) enum Opener<'a> {
    /// The file is the service's own.
    Service,
    /// The file is that of `other`, and the service exists.
    Other,
    /// The file is that of `other`, and the service, whose file has this name, doesn't exist.
    Last(&'a [u8]),
    /// The rule in a line of the file with this name includes it.
    Rule(&'a [u8], u32),
}

/// Why `other` is opened, depending on whether the service exists.
pub(crate) fn opener_of_other<'a>(there: bool, own: &'a RuleFile) -> Opener<'a>
    ensures { opener_of result ≡ (if there then as_other else as_last own.now.name) }
{
    if there {
        Opener::Other
    } else {
        Opener::Last(own.name.bytes())
    }
}

/// The refusal to open a file: its position is the rule that includes it, or the file itself.
pub(crate) fn refused_opening(
    alloc: Global,
    opener: Opener,
    file: &RuleFile,
    kind: FaultKind,
) -> Refuse<LoadFault>
    ensures { IsRefusal result (opening_fault file.now.name (opener_of opener.entry) kind) }
{
    match opener {
        Opener::Rule(name, line) => refused(alloc, name, line, kind),
        _ => refused(alloc, file.name.bytes(), 0, kind),
    }
}
