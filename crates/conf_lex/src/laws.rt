ghost use Rattle.std.specs.Prelude.{◌≡◌, ℕ, List};
ghost use Rattle.conf_lex.specs.declared.token.LexFault.{LexFault};
ghost use Rattle.conf_lex.specs.declared.token.RawRule.{RawRule};
ghost use Rattle.conf_lex.specs.Piece.{Piece, IsReading};
ghost use Rattle.conf_lex.specs.Reading.{pieces_of};
ghost use Rattle.conf_lex.specs.Rules.{Spells, IsFirstFault};

/// A text is spelled by one list of rules at most.
pub fn one_spelling()
    ensures { (text : List ℕ) (rules others : List RawRule) →
        Spells text rules → Spells text others → rules ≡ others }
{}

/// A text has one first fault at most.
pub fn one_first_fault()
    ensures { (text : List ℕ) (fault other : LexFault) →
        IsFirstFault text fault → IsFirstFault text other → fault ≡ other }
{}

/// Every text has exactly one reading, that of the plain function; so a text without an open
/// bracket is spelled by some rules.
pub fn one_reading()
    ensures reading { (text : List ℕ) → IsReading text (pieces_of text) }
    ensures only { (text : List ℕ) (pieces : List Piece) →
        IsReading text pieces → pieces ≡ pieces_of text }
{}
