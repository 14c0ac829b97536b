ghost use Rattle.std.specs.Prelude.{List, ℕ, Bool, Result};
ghost use Rattle.record_reader.specs.Cutting.{Cuts, Keeps};
ghost use Rattle.record_reader.specs.FirstItem.{IsFirstItem};

/// What the bytes held begin with.
#[derive(Clone, Copy, Debug, PartialEq, Eq)]
pub enum FirstItem {
    /// No item yet: more bytes have to come, or the input has to end.
    Wait,
    /// An item.
    Item {
        /// The number of its bytes.
        length: usize,
        /// The number of bytes before the next item: its own, and its terminator.
        size: usize,
    },
    /// All bytes held are one item, which is refused whatever follows.
    Last,
}

/// How items are cut from a stream of bytes and what they do, for those who state the result of a run over them. The
/// laws here hold for every implementation.
pub trait Stepping {
    /// Why an item is refused.
    type Kind: Copy;

    /// What stays the same during a run.
    ghost Setting: { Type 0 };

    /// What an item changes.
    ghost State: { Type 0 };

    /// The items cut from bytes that follow n items; the flag says whether the input ends after them.
    ghost looked: { ℕ → List ℕ → Bool → List (List ℕ) };

    /// The state after an item that follows n others, and the text to write for it; or why it is refused.
    ghost step: { Setting → ℕ → State → List ℕ → Result (State × List ℕ) Self.Kind };

    /// The items after n others that are refused in every state.
    ghost refuses: { ℕ → List ℕ → Type 0 };

    /// The states that an item after n others may leave if its call runs out of memory.
    ghost fails: { Setting → ℕ → State → List ℕ → State → Type 0 };

    /// What bytes begin with after n items. It waits for at most 581 bytes.
    fn first_item(before: u32, held: &[u8]) -> FirstItem
        ensures { IsFirstItem looked refuses result before held.now };

    /// A law: bytes that wait for more are an item if the input ends there.
    fn cuts()
        ensures { Cuts looked };

    /// A law: which items are cut, and which are refused, depends on the bytes alone, not on how reads divided them.
    fn keeps()
        ensures { (setting : Setting) → Keeps looked refuses (step setting) };
}
