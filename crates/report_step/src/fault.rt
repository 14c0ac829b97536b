ghost use Rattle.std.specs.Prelude.{◌≡◌, IfOk, string_bytes};
ghost use Rattle.report_step.specs.Fault.{refused_text};

use pam_base::NoMemory;
use report_lines::service_load::LoadFault;
use report_lines::write_refused;
use std::alloc::Global;

/// The line of a configuration that is refused, with its newline: `refused FILE LINE NAME NUMBER`, with the file's
/// name quoted.
pub fn refused_report(alloc: Global, fault: &LoadFault) -> Result<String, NoMemory>
    ensures { IfOk result (λ text. string_bytes text ≡ refused_text fault.now) }
{
    let mut text = String::new(alloc);
    write_refused(&mut text, fault)?;
    text.push_str("\n")?;
    Ok(text)
}
