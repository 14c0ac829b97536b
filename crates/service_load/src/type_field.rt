ghost use Rattle.std.specs.Prelude.{◌≡◌};
ghost use Rattle.service_load.specs.RuleType.{is_word, type_field_of, type_field_of_word};

use crate::rule_type::RuleType;
use control_words::conf_lex::Token;

/// The type field of a rule (`pam.conf(5)`).
#[derive(Clone, Copy, Debug, PartialEq, Eq)]
pub struct TypeField {
    /// Whether no note is made of a missing module (a `-` before the type).
    pub silent: bool,
    pub rule_type: RuleType,
}

impl TypeField {
    /// The type field that a token is, in any case and without brackets; None if and only if it
    /// isn't one.
    pub(crate) fn of(token: &Token) -> Option<TypeField>
        ensures { result ≡ type_field_of token.now }
    {
        if token.bracketed {
            return None;
        }
        type_field_in(token.text.bytes())
    }
}

/// Whether a token is this word, in any case and without brackets.
pub fn is_word(word: &[u8], token: &Token) -> bool
    ensures { result ≡ is_word word.now token.now }
{
    !token.bracketed && token.text.bytes().eq_ignore_ascii_case(word)
}

fn type_field_in(word: &[u8]) -> Option<TypeField>
    ensures { result ≡ type_field_of_word word.now }
{
    match word {
        [b'-', name @ ..] => Some(TypeField {
            silent: true,
            rule_type: RuleType::named(name)?,
        }),
        _ => Some(TypeField {
            silent: false,
            rule_type: RuleType::named(word)?,
        }),
    }
}
