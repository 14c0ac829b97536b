ghost use Rattle.std.specs.Prelude.{◌≡◌, ◌++◌, OnOk, string_bytes};
ghost use Rattle.service_load.specs.Load.{AreBounded};
ghost use Rattle.service_load.specs.Trees.{stacks_of_trees};
ghost use Rattle.ways_lines.specs.Service.{ShowsService, service_head};

use crate::fields::write_field;
use crate::stack_text::write_stack;
use explain_lines::Sources;
use module_table::Entry;
use pam_base::NoMemory;
use service_load::{RuleType, Trees};
use std::alloc::Global;

/// The lines of a service: those of its four stacks, in the order auth, account, password, session.
pub fn write_service(
    alloc: Global,
    text: &mut String,
    service: &[u8],
    trees: &Trees,
    sources: &Sources,
    table: &[Entry],
) -> Result<(), NoMemory>
    requires bounded { AreBounded trees.now }
    ensures { OnOk result (ShowsService service.now (stacks_of_trees trees.now)
        sources.now table.now (string_bytes text.old) (string_bytes text.new)) }
{
    write_head(text, service)?;
    write_stack(
        alloc,
        text,
        RuleType::Auth,
        &trees.auth,
        &sources.auth,
        table,
    )?;
    write_stack(
        alloc,
        text,
        RuleType::Account,
        &trees.account,
        &sources.account,
        table,
    )?;
    write_stack(
        alloc,
        text,
        RuleType::Password,
        &trees.password,
        &sources.password,
        table,
    )?;
    write_stack(
        alloc,
        text,
        RuleType::Session,
        &trees.session,
        &sources.session,
        table,
    )?;
    Ok(())
}

#[tactic(auto, unfolding(crate::specs::Service::service_head))]
fn write_head(text: &mut String, service: &[u8]) -> Result<(), NoMemory>
    ensures { OnOk result (string_bytes text.new ≡ string_bytes text.old
        ++ service_head service.now) }
{
    text.push_str("service")?;
    write_field(text, service)?;
    text.push_str("\n")?;
    Ok(())
}
