ghost use Rattle.std.specs.Prelude.{◌≡◌, ◌++◌, OnOk, string_bytes};
ghost use Rattle.report_step.specs.Said.{message_text, messages_text};

use pam_base::NoMemory;
use pam_library::conv_port::Message;
use report_lines::write_said;

/// Adds a line for each message, in order.
pub(crate) fn write_messages(
    text: &mut String,
    handle: u32,
    messages: &[Message],
) -> Result<(), NoMemory>
    ensures { OnOk result (string_bytes text.new ≡ string_bytes text.old
        ++ messages_text handle «messages».now) }
{
    for message in messages {
        write_message(text, handle, message)?;
    }
    Ok(())
}

fn write_message(text: &mut String, handle: u32, message: &Message) -> Result<(), NoMemory>
    ensures { OnOk result (string_bytes text.new ≡ string_bytes text.old
        ++ message_text handle message.now) }
{
    write_said(text, handle, message.style, message.text.bytes())
}
