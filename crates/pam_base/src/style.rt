ghost use Rattle.std.specs.Prelude.{◌≡◌};
ghost use Rattle.pam_base.specs.Style.{style_number, is_prompt};

/// How a message is shown to the user, by its number in `pam_conv(3)`. PAM_RADIO_TYPE and
/// PAM_BINARY_PROMPT aren't supported.
#[derive(Clone, Copy, Debug, PartialEq, Eq)]
pub enum Style {
    /// PAM_PROMPT_ECHO_OFF (1): a prompt; the reply isn't shown while it is typed.
    EchoOff = 1,
    /// PAM_PROMPT_ECHO_ON (2): a prompt; the reply is shown.
    EchoOn = 2,
    /// PAM_ERROR_MSG (3): an error to be shown.
    ErrorMsg = 3,
    /// PAM_TEXT_INFO (4): a text to be shown.
    TextInfo = 4,
}

impl Style {
    /// The number, from 1 to 4.
    pub fn number(self) -> u32
        ensures { result ≡ style_number self }
    {
        self as u32
    }

    /// Whether a message of this style is a prompt, which asks for a reply.
    pub fn is_prompt(self) -> bool
        ensures { result ≡ is_prompt self }
    {
        matches!(self, Style::EchoOff | Style::EchoOn)
    }
}
