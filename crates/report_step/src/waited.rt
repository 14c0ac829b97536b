ghost use Rattle.std.specs.Prelude.{◌≡◌, ◌++◌, OnOk, string_bytes};
ghost use Rattle.report_step.specs.Waited.{wait_text, waited_text};

use pam_base::NoMemory;
use pam_library::pam_handle::Wait;

/// Adds the line of a wait, if there was one.
pub(crate) fn write_waited(
    text: &mut String,
    handle: u32,
    waited: &Option<Wait>,
) -> Result<(), NoMemory>
    ensures { OnOk result (string_bytes text.new ≡ string_bytes text.old
        ++ waited_text handle waited.now) }
{
    match waited {
        Some(wait) => write_wait(text, handle, wait),
        None => Ok(()),
    }
}

fn write_wait(text: &mut String, handle: u32, waited: &Wait) -> Result<(), NoMemory>
    ensures { OnOk result (string_bytes text.new ≡ string_bytes text.old
        ++ wait_text handle waited.now) }
{
    report_lines::write_waited(text, handle, waited.code, waited.asked, waited.wait)
}
