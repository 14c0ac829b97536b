ghost use Rattle.std.specs.Prelude.{◌≡◌, ◌+◌, ◌≤◌, ◌<◌, ◌++◌, ◌∷◌, [], length, vec_len, vec_capacity};
ghost use Rattle.std.specs.List.{SwappedAt};

use crate::slot::Slot;

/// Undoes a `swap_remove`: the slot is at `place` again, and the slot that was moved there is the last again.
pub(crate) fn put_back(slots: &mut Vec<Slot>, place: usize, slot: Slot)
    requires within { place ≤ vec_len slots.old }
    requires room { vec_len slots.old < vec_capacity slots.old }
    ensures swapped { SwappedAt (slots.old.items ++ slot ∷ []) slots.new.items place
        (length slots.old.items) }
    ensures len { length slots.new.items ≡ length slots.old.items + 1 }
{
    let last = slots.len();
    slots.push(slot).unwrap();
    slots.swap(place, last);
}
