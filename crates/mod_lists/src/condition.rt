ghost use Rattle.std.specs.Prelude.{◌≡◌, ◌||◌, option_map, true};
ghost use Rattle.std.specs.Str.{bytes_eq};
ghost use Rattle.pam_base.specs.Number.{value_of_digits};
ghost use Rattle.mod_lists.specs.Condition.{account_word, condition_of, count_of, field_of, group_sense, is_count, item_word, order_of, plain_condition, plain_test, test_of, text_test};

use pam_base::{Word, are_digits, find_word};

/// An item of the transaction.
#[derive(Clone, Copy, Debug, PartialEq, Eq)]
pub enum ItemField {
    User,
    Tty,
    Rhost,
    Ruser,
    Service,
}

const ALL_ITEM_FIELDS: [ItemField; 5] = [
    ItemField::User,
    ItemField::Tty,
    ItemField::Rhost,
    ItemField::Ruser,
    ItemField::Service,
];

impl Word for ItemField {
    ghost spelling = { item_word };

    fn word(self) -> &'static str {
        match self {
            ItemField::User => "user",
            ItemField::Tty => "tty",
            ItemField::Rhost => "rhost",
            ItemField::Ruser => "ruser",
            ItemField::Service => "service",
        }
    }
}

/// A field of the user's account (`passwd(5)`).
#[derive(Clone, Copy, Debug, PartialEq, Eq)]
pub enum AccountField {
    Uid,
    Gid,
    Shell,
    Home,
}

const ALL_ACCOUNT_FIELDS: [AccountField; 4] = [
    AccountField::Uid,
    AccountField::Gid,
    AccountField::Shell,
    AccountField::Home,
];

impl Word for AccountField {
    ghost spelling = { account_word };

    fn word(self) -> &'static str {
        match self {
            AccountField::Uid => "uid",
            AccountField::Gid => "gid",
            AccountField::Shell => "shell",
            AccountField::Home => "home",
        }
    }
}

/// What a condition tests: an item of the transaction, or a field of the user's account.
#[derive(Clone, Copy, Debug, PartialEq, Eq)]
pub enum Field {
    Item(ItemField),
    Account(AccountField),
}

/// How two numbers are compared.
#[derive(Clone, Copy, Debug, PartialEq, Eq)]
pub enum Order {
    Less,
    AtMost,
    Equal,
    Unequal,
    AtLeast,
    Greater,
}

/// A test of a field; its flag is false for the opposite test.
#[derive(Clone, Copy, Debug)]
pub enum Test<'a> {
    /// It is compared as a number, with this one.
    Compares(Order, u64),
    /// It is compared as a text, with this one.
    Equals(bool, &'a [u8]),
    /// It is compared as a text, with those of a list, separated by colons.
    IsAmong(bool, &'a [u8]),
}

/// A condition.
#[derive(Clone, Copy, Debug)]
pub enum Condition<'a> {
    On(Field, Test<'a>),
    /// Whether the user is in one of these groups, separated by colons; with `false`, in none of
    /// them.
    Grouped(bool, &'a [u8]),
}

/// The condition of three words, if it is one.
#[tactic(auto, unfolding(crate::specs::Condition::condition_of))]
pub fn condition_of<'a>(field: &[u8], word: &[u8], value: &'a [u8]) -> Option<Condition<'a>>
    ensures { option_map plain_condition result ≡ condition_of field.now word.now value.now }
{
    match group_sense(word) {
        Some(sense) => {
            if field == b"user".as_slice() {
                Some(Condition::Grouped(sense, value))
            } else {
                None
            }
        }
        None => match field_of(field) {
            Some(field) => match test_of(word, value) {
                Some(test) => Some(Condition::On(field, test)),
                None => None,
            },
            None => None,
        },
    }
}

fn group_sense(word: &[u8]) -> Option<bool>
    ensures { result ≡ group_sense word.now }
{
    if word == b"ingroup".as_slice() {
        Some(true)
    } else if word == b"notingroup".as_slice() {
        Some(false)
    } else {
        None
    }
}

fn field_of(word: &[u8]) -> Option<Field>
    ensures { result ≡ field_of word.now }
{
    match find_word(&ALL_ITEM_FIELDS, word) {
        Some(item) => Some(Field::Item(item)),
        None => find_word(&ALL_ACCOUNT_FIELDS, word).map(Field::Account),
    }
}

fn test_of<'a>(word: &[u8], value: &'a [u8]) -> Option<Test<'a>>
    ensures { option_map plain_test result ≡ test_of word.now value.now }
{
    match order_of(word) {
        Some(order) => match count_of(value) {
            Some(number) => Some(Test::Compares(order, number)),
            None => None,
        },
        None => text_test(word, value),
    }
}

fn order_of(word: &[u8]) -> Option<Order>
    ensures { result ≡ order_of word.now }
{
    if is_either(word, b"lt", b"<") {
        Some(Order::Less)
    } else if is_either(word, b"le", b"<=") {
        Some(Order::AtMost)
    } else if word == b"eq".as_slice() {
        Some(Order::Equal)
    } else if word == b"ne".as_slice() {
        Some(Order::Unequal)
    } else if is_either(word, b"ge", b">=") {
        Some(Order::AtLeast)
    } else if is_either(word, b"gt", b">") {
        Some(Order::Greater)
    } else {
        None
    }
}

fn is_either(word: &[u8], one: &[u8], other: &[u8]) -> bool
    ensures { result ≡ (bytes_eq word.now one.now || bytes_eq word.now other.now) }
{
    word == one || word == other
}

fn text_test<'a>(word: &[u8], value: &'a [u8]) -> Option<Test<'a>>
    ensures { option_map plain_test result ≡ text_test word.now value.now }
{
    if word == b"=".as_slice() {
        Some(Test::Equals(true, value))
    } else if word == b"!=".as_slice() {
        Some(Test::Equals(false, value))
    } else if word == b"in".as_slice() {
        Some(Test::IsAmong(true, value))
    } else if word == b"notin".as_slice() {
        Some(Test::IsAmong(false, value))
    } else {
        None
    }
}

/// The number that a word of 1 to 18 decimal digits is.
pub(crate) fn count_of(word: &[u8]) -> Option<u64>
    ensures { result ≡ count_of word.now }
{
    if is_count(word) {
        Some(value_of_digits(word))
    } else {
        None
    }
}

fn is_count(word: &[u8]) -> bool
    ensures { result ≡ is_count word.now }
{
    !word.is_empty() && word.len() <= 18 && are_digits(word)
}

fn value_of_digits(digits: &[u8]) -> u64
    requires { is_count digits.now ≡ true }
    ensures { result ≡ value_of_digits digits.now }
{
    let mut value: u64 = 0;
    for digit in digits {
        value = 10 * value + u64::from(*digit - b'0');
    }
    value
}
