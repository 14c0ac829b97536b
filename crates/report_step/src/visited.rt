ghost use Rattle.std.specs.Prelude.{◌≡◌, ◌++◌, OnOk, string_bytes};
ghost use Rattle.report_step.specs.Visited.{visit_text, visits_text};

use pam_base::NoMemory;
use pam_library::pam_room::Visit;
use report_lines::control_words::module_name;
use report_lines::write_visited;

/// Adds a line for each line that was run, in order.
pub(crate) fn write_visits(text: &mut String, handle: u32, visits: &[Visit]) -> Result<(), NoMemory>
    ensures { OnOk result (string_bytes text.new ≡ string_bytes text.old
        ++ visits_text handle visits.now) }
{
    for visit in visits {
        write_visit(text, handle, visit)?;
    }
    Ok(())
}

fn write_visit(text: &mut String, handle: u32, visit: &Visit) -> Result<(), NoMemory>
    ensures { OnOk result (string_bytes text.new ≡ string_bytes text.old
        ++ visit_text handle visit.now) }
{
    let module = module_name(visit.path.bytes());
    write_visited(text, handle, visit.place, module, visit.answer)
}
