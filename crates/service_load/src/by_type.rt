ghost use Rattle.std.specs.Prelude.{◌≡◌};
ghost use Rattle.std.specs.Borrow.{sem};

use crate::rule_type::RuleType;

/// One value for each type of rule (`pam.conf(5)`).
#[derive(Debug, Drop)]
pub struct ByType<T> {
    pub auth: T,
    pub account: T,
    pub password: T,
    pub session: T,
}

impl<T> ByType<T> {
    ghost use Rattle.service_load.specs.ByType.{at_type, with_type};
    ghost use Rattle.service_load.specs.Lending.{lends_type};

    /// The value of a type.
    pub fn of(&self, rule_type: RuleType) -> &T
        ensures { result.now ≡ at_type self.now rule_type }
    {
        match rule_type {
            RuleType::Auth => &self.auth,
            RuleType::Account => &self.account,
            RuleType::Password => &self.password,
            RuleType::Session => &self.session,
        }
    }

    /// The value of a type, to be changed; the others stay.
    pub fn of_mut(&mut self, rule_type: RuleType) -> &mut T
        ensures* lends { sem 𝓛 (lends_type T.row self.entry rule_type result) }
        ensures value { result.now ≡ at_type self.old rule_type }
    {
        match rule_type {
            RuleType::Auth => &mut self.auth,
            RuleType::Account => &mut self.account,
            RuleType::Password => &mut self.password,
            RuleType::Session => &mut self.session,
        }
    }

    /// Sets the value of a type; the others stay.
    pub fn put(&mut self, rule_type: RuleType, value: T)
    where
        T: Drop,
        ensures { self.new ≡ with_type self.old rule_type value }
    {
        *self.of_mut(rule_type) = value;
    }
}
