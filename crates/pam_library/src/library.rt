ghost use Rattle.std.specs.Prelude.{◌≡◌, ◌<◌, ◌^◌, ◌≤◌, ◌&&◌, Some, map, length, slice_get, IfOk, IsTrue};
ghost use Rattle.std.specs.List.{list_all};
ghost use Rattle.pam_handle.specs.dispatch_core.specs.Lines.{names_of};

use crate::slot::Slot;
use conv_port::Conv;
use pam_base::NoMemory;
use pam_handle::pam_room::{Module, name_of};
use pam_handle::{Gear, GearTold, StartCache};
use std::alloc::Global;
use std::mem;

/// Sixteen transactions with one list of modules and one delay function. Each slot has a conversation, even while no
/// transaction is open there.
pub struct Library {
    pub(crate) gear: Gear,
    pub(crate) slots: Vec<Slot>,
    // What its starts keep.
    pub(crate) cache: StartCache,
    ghost sixteen: { length slots.items ≡ 16 },
}

/// Names a library's content and whether its conversations are modelled, for contracts.
pub trait LibraryTold {
    ghost use Rattle.std.specs.Prelude.{Bool, List};
    ghost use Rattle.pam_library.specs.Slots.{PlainSlot};

    /// Whether all its conversations are modelled.
    ghost tells: { Self → Bool };

    /// Its slots, by their numbers from 1.
    ghost slots: { Self → List PlainSlot };
}

impl LibraryTold for Library {
    ghost use Rattle.pam_library.specs.Plain.{slots_in, tells_in};

    ghost tells = { tells_in (λ b. (Conv-box b).conv_tells b.value) };

    ghost slots = { slots_in (λ b. (Conv-box b).conv_holds b.value) };
}

impl Library {
    ghost use Rattle.pam_library.specs.Plain.{closed_with, gear_in};
    ghost use Rattle.pam_library.specs.AnyWorld.{conv_of, with_conv};
    ghost use Rattle.pam_library.specs.Slots.{NoneIsOpen, PlainSlot, is_open_at, slot_at, with_slot};

    /// A library of sixteen closed slots with these conversations, in order, and fewer than 2^32
    /// modules. If memory runs out, the modules, the delay function and the conversations are
    /// dropped.
    pub fn new(alloc: Global, gear: Gear, convs: Vec<Box<dyn Conv>>) -> Result<Library, NoMemory>
        requires sixteen { length convs.items ≡ 16 }
        ensures slots { IfOk result (λ library. ⟦<Library as LibraryTold>⟧.slots library
            ≡ map (closed_with conv_holds) convs.items) }
        ensures tells { IfOk result (λ library. ⟦<Library as LibraryTold>⟧.tells library
            ≡ list_all conv_tells convs.items) }
        ensures gear { IfOk result (λ library. gear_in library ≡ gear) }
    {
        let mut slots = Vec::with_capacity(alloc, 16)?;
        for conv in convs {
            slots.push(Slot::Closed(conv)).unwrap();
        }
        Ok(Library {
            gear,
            slots,
            cache: StartCache::new(alloc),
        })
    }

    /// Whether this is the number of an open transaction.
    pub fn is_open(&self, number: u32) -> bool
        ensures { result ≡ is_open_at (slot_at (⟦<Library as LibraryTold>⟧.slots self.now) number) }
    {
        if number == 0 {
            return false;
        }
        match self.slots.get(number as usize - 1) {
            Some(slot) => slot.is_open(),
            None => false,
        }
    }

    /// The name of the module with this number, from 0.
    pub fn module_name(&self, owner: u32) -> &[u8]
        requires { owner < length (⟦<Gear as GearTold>⟧.players (gear_in self.now)) }
        ensures { slice_get (names_of (⟦<Gear as GearTold>⟧.players (gear_in self.now))) owner
            ≡ Some result.now }
    {
        name_of(&self.gear.mods[owner as usize])
    }

    /// Sets the conversation of the slot with this number, from 1 to 16, open or closed, and
    /// returns the old one. Nothing else changes.
    pub fn put_conv(&mut self, number: u32, conv: Box<dyn Conv>) -> Box<dyn Conv>
        requires first { 1 ≤ number }
        requires last { number ≤ 16 }
        ensures slots { let slots = ⟦<Library as LibraryTold>⟧.slots in
            (slot : PlainSlot) → slot_at (slots self.old) number ≡ Some slot →
            slots self.new
            ≡ with_slot (slots self.old) number (with_conv (conv_holds conv) slot) }
        ensures old { (slot : PlainSlot) → slot_at
            (⟦<Library as LibraryTold>⟧.slots self.old) number ≡ Some slot →
            conv_holds result ≡ conv_of slot }
        ensures tells { let tells = ⟦<Library as LibraryTold>⟧.tells in
            IsTrue (tells self.old && conv_tells conv) →
            IsTrue (tells self.new && conv_tells result) }
        ensures gear { gear_in self.new ≡ gear_in self.old }
    {
        match &mut self.slots[number as usize - 1] {
            Slot::Closed(old) => mem::replace(old, conv),
            Slot::Open(handle) => handle.set_conv(conv),
        }
    }

    /// Drops a library in which no transaction is open, with its modules and conversations. Allocates nothing.
    pub fn dismiss(self)
        requires { NoneIsOpen (⟦<Library as LibraryTold>⟧.slots self) }
    {
        let Library {
            gear: _,
            slots,
            cache: _,
        } = self;
        let mut slots = slots;
        while let Some(slot) = slots.pop() {
            match slot {
                Slot::Closed(_) => {}
                Slot::Open(_handle) => unreachable!(),
            }
        }
        slots.destroy_empty();
    }
}
