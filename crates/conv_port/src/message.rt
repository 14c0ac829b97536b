ghost use Rattle.std.specs.Prelude.{◌≡◌};
ghost use Rattle.pam_base.specs.Style.{is_prompt};
ghost use Rattle.conv_port.specs.Message.{prompt_count};

use pam_base::{Sequence, Style, Text};

/// What a module shows or asks (`struct pam_message` in `pam_conv(3)`).
#[derive(Debug, Drop)]
pub struct Message {
    pub style: Style,
    pub text: Text,
}

/// The messages of one exchange, in order.
pub type Messages = Sequence<Message>;

/// What the user answered (`struct pam_response` in `pam_conv(3)`).
#[derive(Debug, Drop)]
pub struct Reply {
    pub text: Text,
}

/// The replies to the messages of one exchange, in their order.
pub type Replies = Sequence<Reply>;

impl Message {
    /// Whether it asks for a reply.
    pub fn is_prompt(&self) -> bool
        ensures { result ≡ is_prompt self.now.style }
    {
        self.style.is_prompt()
    }
}

/// How many of the messages are prompts.
pub(crate) fn prompts_in(messages: &[Message]) -> usize
    ensures { result ≡ prompt_count «messages».now }
{
    messages
        .iter()
        .filter(|message| message.is_prompt())
        .count()
}
