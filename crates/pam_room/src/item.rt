ghost use Rattle.std.specs.Prelude.{◌≡◌, false, Some, OnOk, OnErr};
ghost use Rattle.std.specs.Option.{option_copied};
ghost use Rattle.item_store.specs.Access.{is_refused};
ghost use Rattle.item_store.specs.Items.{text_of, with_text};
ghost use Rattle.item_store.specs.declared.access.Access.TheVariants.{ModuleGets, ModuleSets};

use item_store::Items;
use pam_base::{ItemName, NoMemory, Refuse};

/// `pam_get_item(3)` for an item that a module may read: its text, or None if it isn't set.
pub fn get_item(items: &Items, item: ItemName) -> Option<&[u8]>
    requires { is_refused ModuleGets item ≡ false }
    ensures { option_copied result ≡ text_of items.now item }
{
    match items.get_mod(item) {
        Ok(text) => text,
        Err(_) => unreachable!(),
    }
}

/// `pam_set_item(3)` for an item that a module may set. If an allocation fails, all stays as it
/// was.
pub fn set_item(items: &mut Items, item: ItemName, text: &[u8]) -> Result<(), NoMemory>
    requires { is_refused ModuleSets item ≡ false }
    ensures ok { OnOk result (items.new ≡ with_text items.old item (Some text.now)) }
    ensures err { OnErr result (items.new ≡ items.old) }
{
    match items.set_mod(item, Some(text)) {
        Ok(()) => Ok(()),
        Err(Refuse::NoMemory) => Err(NoMemory),
        Err(Refuse::Named(_)) => unreachable!(),
    }
}
