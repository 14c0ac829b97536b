ghost use Rattle.std.specs.Prelude.{◌≡◌, ◌∷◌, ◌++◌, [], Some};
ghost use Rattle.std.specs.Str.{bytes_eq};
ghost use Rattle.report_lines.specs.Form.{IsRead};
ghost use Rattle.report_lines.specs.Guess.{if_printed};
ghost use Rattle.report_lines.specs.Says.{Says, says_text};

use crate::form::Form;

/// Whether a text is this line with its newline.
pub fn is_line(text: &str, line: &[u8]) -> bool
    ensures { result ≡ bytes_eq text.now (line.now ++ 10 ∷ []) }
{
    match text.as_bytes().strip_suffix(b"\n") {
        Some(front) => front == line,
        None => false,
    }
}

/// A form, if its text is the line.
pub fn if_printed(text: &str, line: &[u8], form: Form) -> Option<Form>
    ensures { (s : Says) → says_text s ≡ text.now → IsRead (Some form) (Some s) →
        IsRead result (if_printed line.now s) }
{
    if is_line(text, line) {
        Some(form)
    } else {
        None
    }
}
