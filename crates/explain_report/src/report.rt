ghost use Rattle.std.specs.Prelude.{◌≡◌, ◌<◌, ◌+◌, [], IfOk, drop, length, string_bytes};
ghost use Rattle.service_load.specs.Load.{AreBounded};
ghost use Rattle.pass_replay.specs.Retold.{stacks_in};
ghost use Rattle.session_audit.specs.Checked.{bare_lines};
ghost use Rattle.session_audit.specs.Fits.{all_shut};
ghost use Rattle.explain_report.specs.Report.{explained_from};

use crate::explainer::Explainer;
use explain_lines::Sources;
use pam_base::{NoMemory, first_place};
use service_load::Trees;
use session_audit::closed_places;
use std::alloc::Global;

/// The text of the stack calls of a report that fits the stacks of a service, whose rules are
/// written at these sources. Of another report it is the text up to a line that doesn't fit.
pub fn explain_report(
    alloc: Global,
    trees: &Trees,
    sources: &Sources,
    report: &[u8],
) -> Result<String, NoMemory>
    requires bounded { AreBounded trees.now }
    ensures { IfOk result (λ text. string_bytes text
        ≡ explained_from (stacks_in trees.now) sources.now all_shut [] (bare_lines report.now)) }
{
    let mut explainer = Explainer {
        places: closed_places(alloc)?,
        told: Vec::new(alloc),
        text: String::new(alloc),
    };
    let mut rest = report;
    while let Some(n) = first_place(b'\n', rest) {
        let after = after_newline(rest, n);
        let goes_on = explainer.take_line(alloc, trees, sources, &rest[..n])?;
        if !goes_on {
            return Ok(explainer.text);
        }
        rest = after;
    }
    Ok(explainer.text)
}

fn after_newline(text: &[u8], n: usize) -> &[u8]
    requires { n < length text.now }
    ensures { result.now ≡ drop (n + 1) text.now }
{
    &text[n + 1..]
}
