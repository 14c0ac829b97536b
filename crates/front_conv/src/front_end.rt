ghost use Rattle.std.specs.Prelude.{◌≡◌, ◌∷◌, [], Bool, List, Option, ℕ, IfOk, IsOk, IsTrue, MatchOption, OnOk};
ghost use Rattle.std.specs.Io.KnownBytes.{Appends, Consumes, IsAtEnd};

use pam_base::Failed;

/// A front end, with both of its streams: what it sends, and what is sent to it.
pub trait FrontEnd: Drop {
    /// Whether it is known that no call fails. This never changes.
    ghost front_tells: { Self → Bool };

    /// The bytes that it has still to send, if they are known.
    ghost incoming: { Self → Option (List ℕ) };

    /// The bytes that were sent to it, if they are known.
    ghost outgoing: { Self → Option (List ℕ) };

    /// Takes the next byte and no further, and waits for it; None at the end.
    fn next_byte(&mut self) -> Result<Option<u8>, Failed>
        ensures tells { front_tells self.new ≡ front_tells self.old }
        ensures byte { IfOk result (λ byte. MatchOption byte
            (Consumes (incoming self.old) (incoming self.new) [] × IsAtEnd (incoming self.new))
            (λ b. Consumes (incoming self.old) (incoming self.new) (b ∷ []))) }
        ensures shown { outgoing self.new ≡ outgoing self.old }
        ensures steady { IsTrue (front_tells self.old) → IsOk result };

    /// Sends it all of these bytes.
    fn send(&mut self, bytes: &[u8]) -> Result<(), Failed>
        ensures tells { front_tells self.new ≡ front_tells self.old }
        ensures sent { OnOk result (Appends (outgoing self.old) (outgoing self.new) bytes.now) }
        ensures kept { incoming self.new ≡ incoming self.old }
        ensures steady { IsTrue (front_tells self.old) → IsOk result };
}
