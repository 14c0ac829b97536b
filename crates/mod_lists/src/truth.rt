ghost use Rattle.std.specs.Prelude.{◌≡◌, List, ℕ, IfOk};
ghost use Rattle.std.specs.List.{list_any};
ghost use Rattle.std.specs.Str.{bytes_eq};
ghost use Rattle.mod_lists.specs.Condition.{compared, holds_if, in_sense, is_so, items_of, on_number, on_text, plain_test};

use crate::condition::{Order, Test, count_of};
use pam_base::{NoMemory, Parts};
use std::alloc::Global;

/// Whether a condition holds.
#[derive(Clone, Copy, Debug, PartialEq, Eq)]
pub enum Truth {
    Holds,
    Fails,
    /// It needs the account of a user who has none.
    NoUser,
    /// It isn't a well-formed condition, or what it tests isn't a number or can't be read.
    Faulty,
}

impl Test<'_> {
    /// Whether it holds for a text.
    pub fn on_text(&self, text: &[u8]) -> Truth
        ensures { result ≡ on_text (plain_test self.now) text.now }
    {
        match self {
            Test::Compares(order, number) => compared(*order, *number, count_of(text)),
            Test::Equals(sense, wanted) => in_sense(*sense, is_same(wanted, text)),
            Test::IsAmong(sense, list) => in_sense(*sense, has_item(list, text)),
        }
    }

    /// Whether it holds for a number; as a text that is its decimal digits.
    pub fn on_number(&self, alloc: Global, number: u32) -> Result<Truth, NoMemory>
        ensures { IfOk result (λ truth. truth ≡ on_number (plain_test self.now) number) }
    {
        match self {
            Test::Compares(order, other) => Ok(holds_if(is_so(*order, u64::from(number), *other))),
            Test::Equals(_, _) => {
                let digits = format!(in alloc; "{number}")?;
                Ok(self.on_text(digits.as_bytes()))
            }
            Test::IsAmong(_, _) => {
                let digits = format!(in alloc; "{number}")?;
                Ok(self.on_text(digits.as_bytes()))
            }
        }
    }
}

fn is_same(one: &[u8], other: &[u8]) -> bool
    ensures { result ≡ bytes_eq one.now other.now }
{
    one == other
}

// Whether an item of a list is this text.
fn has_item(list: &[u8], text: &[u8]) -> bool
    ensures { result ≡ list_any (λ (item : List ℕ). bytes_eq item text.now) (items_of list.now) }
{
    let mut items = Parts::new(b':', list);
    while let Some(item) = items.next_part() {
        if item == text {
            return true;
        }
    }
    false
}

fn compared(order: Order, number: u64, found: Option<u64>) -> Truth
    ensures { result ≡ compared order number found }
{
    match found {
        Some(found) => holds_if(is_so(order, found, number)),
        None => Truth::Faulty,
    }
}

fn is_so(order: Order, one: u64, other: u64) -> bool
    ensures { result ≡ is_so order one other }
{
    match order {
        Order::Less => one < other,
        Order::AtMost => one <= other,
        Order::Equal => one == other,
        Order::Unequal => one != other,
        Order::AtLeast => one >= other,
        Order::Greater => one > other,
    }
}

/// A test's result, or that of its opposite.
pub fn in_sense(sense: bool, holds: bool) -> Truth
    ensures { result ≡ in_sense sense holds }
{
    if sense {
        holds_if(holds)
    } else {
        holds_if(!holds)
    }
}

fn holds_if(holds: bool) -> Truth
    ensures { result ≡ holds_if holds }
{
    if holds { Truth::Holds } else { Truth::Fails }
}
