ghost use Rattle.std.specs.Prelude.{◌≡◌, ◌<◌, ◌+◌, ◌*◌, ◌++◌, ℕ, [], map, length, string_bytes, OnOk};
ghost use Rattle.random_config.specs.Generator.{state_after};
ghost use Rattle.random_config.specs.Line.{random_line, random_lines, line_text, picked};

use crate::generator::Generator;
use pam_base::NoMemory;

/// What a line does at SUCCESS, picked by a random number.
const SUCCESS_WORDS: [&str; 8] = ["ok", "ok", "done", "ignore", "reset", "1", "2", "3"];

/// What it does at any other code.
const DEFAULT_WORDS: [&str; 4] = ["ignore", "bad", "die", "reset"];

/// What its module returns.
const ANSWER_WORDS: [&str; 4] = ["success", "success", "auth_err", "ignore"];

// The word that a random number picks.
fn pick(words: &'static [&'static str], random_number: u32) -> &'static str
    requires { 0 < length words.now }
    ensures { result.now ≡ picked (map (λ word. word.now) words.now) random_number }
{
    words[random_number as usize % words.len()]
}

/// Adds the next lines. They are the same for every seed that led to this state of the generator.
pub(crate) fn push_lines(
    text: &mut String,
    generator: &mut Generator,
    count: u32,
) -> Result<(), NoMemory>
    ensures { OnOk result ((seed before : ℕ) → generator.old.state ≡ state_after seed (3 * before) →
        (string_bytes text.new ≡ string_bytes text.old ++ random_lines seed before count)
        × (generator.new.state ≡ state_after seed (3 * (before + count)))) }
{
    for i in 0..count {
        push_line(text, generator)?;
    }
    Ok(())
}

// Adds the next line, by three random numbers.
fn push_line(text: &mut String, generator: &mut Generator) -> Result<(), NoMemory>
    ensures { OnOk result ((seed before : ℕ) → generator.old.state ≡ state_after seed (3 * before) →
        (string_bytes text.new ≡ string_bytes text.old ++ random_line seed before)
        × (generator.new.state ≡ state_after seed (3 * (before + 1)))) }
{
    let success = pick(&SUCCESS_WORDS, generator.random_number());
    let default = pick(&DEFAULT_WORDS, generator.random_number());
    let answer = pick(&ANSWER_WORDS, generator.random_number());
    write_line(text, success, default, answer)?;
    Ok(())
}

fn write_line(text: &mut String, success: &str, default: &str, answer: &str) -> Result<(), NoMemory>
    ensures { OnOk result (string_bytes text.new ≡ string_bytes text.old
        ++ line_text success.now default.now answer.now) }
{
    write!(
        text,
        "auth [success={success} new_authtok_reqd=ok default={default}] pam_debug.so auth={answer}\n"
    )?;
    Ok(())
}
