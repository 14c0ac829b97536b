ghost use Rattle.laws_cost.specs.Costs.{DigestsByRounds, HashIsOfDigests, LengthsByLengths, NoDigestIsLeftOut, RoundsAreBounded};

// Each of these is a law about the definition of a hash: its contract states it.

/// The texts that `noted_digest` lists are those that a hash is made of. It is the definition that
/// `crypt` meets, in which each digest notes its text: it gives that hash (`hash`), and a digest
/// that is the same for these texts, whatever it is for others, gives it too (`whole`).
pub fn digests_make_the_hash()
    ensures hash { HashIsOfDigests }
    ensures whole { NoDigestIsLeftOut }
{}

/// A hash takes four digests and one for each round, whatever the key and the salt are, and so at
/// most 1,000,004.
pub fn rounds_give_the_number_of_digests()
    ensures number { DigestsByRounds }
    ensures bounded { RoundsAreBounded }
{}

/// How long these texts are depends on the rounds and on the lengths of the key and of the salt
/// alone, except for one: the fourth is the salt, 16 to 271 times, by a byte of the second digest.
pub fn lengths_give_the_lengths_digested()
    ensures { LengthsByLengths }
{}
