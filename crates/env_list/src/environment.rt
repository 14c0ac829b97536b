ghost use Rattle.std.specs.Prelude.{◌≡◌, ◌≢◌, ◌↔◌, ◌==◌, ◌||◌, not, false, [], map, length, None, Err, IfOk, OnOk, OnErr, IsTrue};
ghost use Rattle.std.specs.Option.{option_copied};
ghost use Rattle.env_list.specs.Environment.{HaveDifferentNames, is_set, value_of, with_value, without, is_deletion, is_refused, after_put, variable_text};
ghost use Rattle.pam_base.specs.Fault.{bad_item};

use indexmap::IndexMap;
use pam_base::{BadItem, NoMemory, Refuse, Text, Texts, first_place};
use std::alloc::Global;
use std::marker::Model;

/// The byte between a name and its value.
const EQUALS: u8 = b'=';

/// The environment that the modules of one transaction give to the session (`pam_getenvlist(3)`).
/// Contracts see the list of its variables, each a name and a value, with different names.
#[derive(Drop)]
pub struct EnvList {
    alloc: Global,
    variables: IndexMap<Vec<u8>, Text>,
}

impl Model for EnvList {
    ghost use Rattle.std.specs.Prelude.{List};
    ghost use Rattle.env_list.specs.Environment.{Variable, HaveDifferentNames};
    ghost use Rattle.env_list.specs.Entries.{variables_of};

    ghost Value = { List Variable };

    ghost view = { λ list. variables_of list.variables.entries };

    ghost invariant = { λ list. HaveDifferentNames (variables_of list.variables.entries) };
}

impl EnvList {
    /// No variable is set. It does not allocate; names and values that are set later are copied
    /// with this allocator.
    pub fn new(alloc: Global) -> Self
        ensures { result ≡ [] }
    {
        EnvList {
            alloc,
            variables: IndexMap::new(alloc),
        }
    }

    /// `pam_putenv(3)`: `NAME=VALUE` sets a variable, `NAME=` sets it to the empty text, and `NAME`
    /// alone deletes it. The name is what comes before the first `=`. A new name goes last; a name
    /// that is set keeps its position; when one is deleted, those after it move up, in time that
    /// grows with their number. Returns BadItem if and only if the name is empty or an unset name
    /// is deleted. A deletion does not allocate. After BadItem, and if an allocation fails, nothing
    /// has changed.
    pub fn put(&mut self, text: &[u8]) -> Result<(), Refuse<BadItem>>
        ensures ok { OnOk result (self.new ≡ after_put text.now self.old) }
        ensures err { OnErr result (self.new ≡ self.old) }
        ensures bad_item { (result ≡ Err (Refuse.Named bad_item))
            ↔ IsTrue (is_refused text.now self.old) }
        ensures deletion { IsTrue (is_deletion text.now) → result ≢ Err Refuse.NoMemory }
    {
        match first_place(EQUALS, text) {
            Some(place) => self.set(&text[..place], &text[place + 1..]),
            None => self.delete(text),
        }
    }

    /// The value of a name; None if it isn't set (`pam_getenv(3)`).
    pub fn get(&self, name: &[u8]) -> Option<&[u8]>
        ensures { option_copied result ≡ value_of name.now self.now }
    {
        self.value(name).map(|value| value.bytes())
    }

    /// The number of variables; no two have the same name.
    pub fn len(&self) -> usize
        ensures length { result ≡ length self.now }
        ensures names { HaveDifferentNames self.now }
    {
        self.variables.len()
    }

    pub fn is_empty(&self) -> bool
        ensures { result ≡ (length self.now == 0) }
    {
        self.variables.len() == 0
    }

    /// A copy of all variables, `NAME=VALUE` each, in their order (`pam_getenvlist(3)`).
    pub fn list(&self, alloc: Global) -> Result<Texts, NoMemory>
        ensures { IfOk result (λ texts. texts ≡ map variable_text self.now) }
    {
        let mut texts = Texts::new(alloc);
        for (name, value) in self.variables.iter() {
            texts.push(joined(alloc, name, value.bytes())?)?;
        }
        Ok(texts)
    }

    fn value(&self, name: &[u8]) -> Option<&Text>
        ensures { option_copied result ≡ value_of name.now self.now }
    {
        self.variables.get(name)
    }

    fn set(&mut self, name: &[u8], value: &[u8]) -> Result<(), Refuse<BadItem>>
        ensures ok { OnOk result (self.new ≡ with_value name.now value.now self.old) }
        ensures err { OnErr result (self.new ≡ self.old) }
        ensures bad_item { (result ≡ Err (Refuse.Named bad_item)) ↔ IsTrue (length name.now == 0) }
    {
        if name.is_empty() {
            return Err(Refuse::Named(BadItem));
        }
        self.insert(name, value)?;
        Ok(())
    }

    fn insert(&mut self, name: &[u8], value: &[u8]) -> Result<(), NoMemory>
        ensures ok { OnOk result (self.new ≡ with_value name.now value.now self.old) }
        ensures err { OnErr result (self.new ≡ self.old) }
    {
        let name = Vec::from_slice(self.alloc, name)?;
        let value = Text::from_bytes(self.alloc, value)?;
        self.variables.insert(name, value)?;
        Ok(())
    }

    fn delete(&mut self, name: &[u8]) -> Result<(), Refuse<BadItem>>
        ensures ok { OnOk result (self.new ≡ without name.now self.old) }
        ensures err { OnErr result (self.new ≡ self.old) }
        ensures bad_item { (result ≡ Err (Refuse.Named bad_item)) ↔ IsTrue (length name.now == 0
            || not (is_set name.now self.old)) }
        ensures memory { result ≢ Err Refuse.NoMemory }
    {
        if name.is_empty() || !self.remove(name) {
            return Err(Refuse::Named(BadItem));
        }
        Ok(())
    }

    // Returns whether the name was set.
    fn remove(&mut self, name: &[u8]) -> bool
        ensures removed { self.new ≡ without name.now self.old }
        ensures was_set { result ≡ is_set name.now self.old }
        ensures unset { result ≡ false → self.new ≡ self.old }
    {
        self.variables.shift_remove(name).is_some()
    }
}

fn joined(alloc: Global, name: &[u8], value: &[u8]) -> Result<Text, NoMemory>
    ensures { IfOk result (λ text. text ≡ variable_text
        (record { name = name.now; value = value.now })) }
{
    let mut text = Vec::from_slice(alloc, name)?;
    text.push(EQUALS)?;
    text.extend_from_slice(value)?;
    Ok(Text::from_vec(text))
}
