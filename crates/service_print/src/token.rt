ghost use Rattle.std.specs.Prelude.{◌≡◌, ◌++◌, OnOk};
ghost use Rattle.std.specs.List.{flat_map, list_any};
ghost use Rattle.service_print.specs.Tokens.{ended, ends_token, escaped_byte, line_end, token_text, wants_brackets};

use pam_base::{NoMemory, is_white};

/// Adds a path or an argument: plainly, or in brackets if it would not be read as one token.
pub fn add_token(token: &[u8], line: &mut Vec<u8>) -> Result<(), NoMemory>
    ensures { OnOk result (line.new.items ≡ line.old.items ++ token_text token.now) }
{
    if wants_brackets(token) {
        line.push(b'[')?;
        add_escaped(token, line)?;
        line.push(b']')?;
    } else {
        line.extend_from_slice(token)?;
    }
    Ok(())
}

fn wants_brackets(token: &[u8]) -> bool
    ensures { result ≡ wants_brackets token.now }
{
    match token {
        [] => true,
        [first, ..] => *first == b'[' || has_token_end(token),
    }
}

fn has_token_end(token: &[u8]) -> bool
    ensures { result ≡ list_any ends_token token.now }
{
    token.iter().any(|byte| is_white(*byte) || *byte == b'#')
}

fn add_escaped(token: &[u8], line: &mut Vec<u8>) -> Result<(), NoMemory>
    ensures { OnOk result (line.new.items ≡ line.old.items ++ flat_map escaped_byte token.now) }
{
    for byte in token {
        if *byte == b']' {
            line.push(b'\\')?;
        }
        line.push(*byte)?;
    }
    Ok(())
}

/// Adds a line with its end to a text.
pub fn add_line(line: &[u8], text: &mut Vec<u8>) -> Result<(), NoMemory>
    ensures { OnOk result (text.new.items ≡ text.old.items ++ ended line.now) }
{
    text.extend_from_slice(line)?;
    text.extend_from_slice(line_end(line))?;
    Ok(())
}

// A backslash before the newline would join the next line.
fn line_end(line: &[u8]) -> &'static [u8]
    ensures { result.now ≡ line_end line.now }
{
    match line {
        [.., b'\\'] => b" \n",
        _ => b"\n",
    }
}
