ghost use Rattle.std.specs.Prelude.{◌≡◌};
ghost use Rattle.script_lang.specs.Place.{fault_of, form_of, is_wanted, is_text};

use pam_base::ScriptKind;

/// The form of a word of a line.
#[derive(Clone, Copy, Debug, PartialEq, Eq)]
pub(crate) enum Form {
    /// A number of 32 bits, in decimal or hexadecimal digits.
    Number,
    /// A time of the clock, in decimal digits.
    Moment,
    /// A random word of the clock, in decimal digits.
    Random,
    /// A service's name.
    Service,
    /// A word that isn't empty.
    Name,
    /// An item's word.
    Item,
    /// `on` or `off`.
    Switch,
    /// The rest of the line, which may be empty and contain spaces.
    Text,
}

/// A place after the word of a command.
#[derive(Clone, Copy, Debug, PartialEq, Eq)]
pub(crate) enum Position {
    Wanted(Form),
    /// Optional: no word has to follow.
    Optional(Form),
    /// No word may follow.
    Nothing,
}

impl Form {
    /// The fault of a word that isn't of this form.
    pub(crate) fn fault(self) -> ScriptKind
        ensures { result ≡ fault_of self }
    {
        match self {
            Form::Number | Form::Moment | Form::Random => ScriptKind::BadNumeral,
            _ => ScriptKind::BadWord,
        }
    }
}

impl Position {
    pub(crate) fn form(self) -> Option<Form>
        ensures { result ≡ form_of self }
    {
        match self {
            Position::Wanted(form) | Position::Optional(form) => Some(form),
            Position::Nothing => None,
        }
    }

    pub(crate) fn is_wanted(self) -> bool
        ensures { result ≡ is_wanted self }
    {
        matches!(self, Position::Wanted(_))
    }

    pub(crate) fn is_text(self) -> bool
        ensures { result ≡ is_text self }
    {
        self.form() == Some(Form::Text)
    }
}
