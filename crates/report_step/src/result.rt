ghost use Rattle.std.specs.Prelude.{◌≡◌, IfOk, string_bytes};
ghost use Rattle.report_lines.specs.script_lang.specs.Command.{word_of_call};
ghost use Rattle.report_step.specs.Answered.{answer_text};

use crate::answered::write_answer;
use pam_base::{NoMemory, Step};
use pam_library::Answer;
use report_lines::script_lang::call_word;
use std::alloc::Global;

/// The line of a step's result alone, as `1 authenticate SUCCESS 0`, with its newline.
pub fn result_report(alloc: Global, step: &Step, answer: &Answer) -> Result<String, NoMemory>
    ensures { IfOk result (λ text. string_bytes text
        ≡ answer_text step.now.number (word_of_call step.now.call) answer.now) }
{
    let mut text = String::new(alloc);
    write_answer(&mut text, step.number, call_word(&step.call), answer)?;
    Ok(text)
}
