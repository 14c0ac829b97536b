ghost use Rattle.std.specs.Prelude.{◌≡◌, IfOk};
ghost use Rattle.service_print.specs.Printed.{printed, stacks_in};

use crate::file::Files;
use crate::substack::{add_nodes, empty_file, fill};
use pam_base::NoMemory;
use service_load::{ALL_TYPES, Trees};
use std::alloc::Global;

/// Returns the four stacks of a service in normal form (`pam.d(5)`): its file, with the lines of
/// auth, account, password and session, and a file `SERVICE.n` for each substack, numbered from 1
/// in the order in which they begin.
///
/// A line is its type, with `-` if the rule has it, its control, its path and its arguments, with
/// one space between them. A control that a keyword is short for is that keyword, any other the
/// entries of the codes that aren't bad. A path or an argument is put in brackets if it would not
/// be read as one token.
///
/// Fails only if an allocation fails; memory is used for the texts alone. The time is linear in
/// their length.
pub fn print(alloc: Global, trees: &Trees, service: &[u8]) -> Result<Files, NoMemory>
    ensures { IfOk result (λ files. files ≡ printed (stacks_in trees.now) service.now) }
{
    let mut text = Vec::new(alloc);
    let mut files = Vec::new(alloc);
    files.push(empty_file(alloc))?;
    for rule_type in &ALL_TYPES {
        let nodes = trees.of(*rule_type);
        add_nodes(alloc, service, *rule_type, nodes, &mut text, &mut files)?;
    }
    fill(0, Vec::from_slice(alloc, service)?, text, &mut files);
    Ok(Files::from_vec(files))
}
