ghost use Rattle.std.specs.Prelude.{◌≡◌, ◌≢◌, ◌↔◌, None, Err, IfOk, IsErr, OnOk, OnErr, IsTrue};
ghost use Rattle.std.specs.Option.{option_copied};
ghost use Rattle.item_store.specs.Access.{is_refused};
ghost use Rattle.item_store.specs.Items.{text_of, with_text};
ghost use Rattle.item_store.specs.declared.access.Access.TheVariants.{ApplicationGets, ApplicationSets};
ghost use Rattle.pam_base.specs.Fault.{bad_item};
ghost use Rattle.pam_handle.specs.Items.{with_items};
ghost use Rattle.pam_handle.specs.Plain.{Keeps, plain_handle, room_in};

use crate::handle::Handle;
use dispatch_core::pam_room::{Room, RoomTold};
use pam_base::{BadItem, ItemName, Refuse};

impl Handle {
    /// `pam_set_item(3)`: stores a copy of the value; None unsets the item, which allocates
    /// nothing. BadItem exactly for SERVICE, which only the start sets, for the tokens, which
    /// belong to the modules, and for CONV and FAIL_DELAY, which have their own calls. If the call
    /// is refused or runs out of memory, nothing changes. A pending call stays pending.
    pub fn set_item(&mut self, item: ItemName, value: Option<&[u8]>) -> Result<(), Refuse<BadItem>>
        ensures tells { Keeps ⟦<Room as RoomTold>⟧.tells (room_in self.old) (room_in self.new) }
        ensures ok { let plain = plain_handle ⟦<Room as RoomTold>⟧.plain in
            OnOk result (plain self.new ≡ with_items
            (with_text (plain self.old).room.transaction.items item (option_copied value.entry))
            (plain self.old)) }
        ensures err { OnErr result (self.new ≡ self.old) }
        ensures bad_item { (result ≡ Err (Refuse.Named bad_item)) ↔ IsTrue
            (is_refused ApplicationSets item) }
        ensures unset { value.entry ≡ None → result ≢ Err Refuse.NoMemory }
    {
        self.room.transaction.items.set_app(item, value)
    }

    /// `pam_get_item(3)`; None if the item isn't set. BadItem exactly for the tokens, CONV and FAIL_DELAY.
    pub fn get_item(&self, item: ItemName) -> Result<Option<&[u8]>, BadItem>
        ensures ok { IfOk result (λ text. option_copied text
            ≡ text_of
            (plain_handle ⟦<Room as RoomTold>⟧.plain self.now).room.transaction.items item) }
        ensures bad_item { IsErr result ↔ IsTrue (is_refused ApplicationGets item) }
    {
        self.room.transaction.items.get_app(item)
    }
}
