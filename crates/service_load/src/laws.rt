ghost use Rattle.std.specs.Prelude.{◌≡◌, ℕ, ◌+◌, ◌-◌, ◌≤◌, ◌^◌, min, Bool, List, Option, Ok};
ghost use Rattle.service_load.specs.FirstFault.{Counts, look};
ghost use Rattle.service_load.specs.Order.{Item, openings_in};

/// If a load meets no fault, it has counted one opening and one file access for each file that is
/// opened along its items, whatever these are.
pub fn each_opening_is_a_call()
    ensures { (texts : List ℕ → Option (List ℕ)) (fails : List ℕ) (before after : Counts)
        (items : List Item) →
        before.calls ≤ 2 ^ 64 - 1 → look texts fails before items ≡ Ok after →
        (after.openings ≡ before.openings + openings_in items) ×
        (after.calls ≡ min (before.calls + openings_in items) (2 ^ 64 - 1)) }
{}
