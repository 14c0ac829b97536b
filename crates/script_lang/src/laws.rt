ghost use Rattle.std.specs.Prelude.{◌≡◌, IsTrue, Ok};
ghost use Rattle.pam_base.specs.declared.call.Step.{Step};
ghost use Rattle.script_lang.specs.declared.line.Line.TheVariants as lines;
ghost use Rattle.script_lang.specs.Line.{parsed};
ghost use Rattle.script_lang.specs.Numbered.{ReadsNumbers};
ghost use Rattle.script_lang.specs.Written.{is_writable, line_of};

/// A step that is written as a line is read as the same step.
pub fn written_is_read()
    ensures { (step : Step) → IsTrue (is_writable step) →
        parsed (line_of step) ≡ Ok (lines.Step step) }
{}

/// The number of a transaction in a line has 32 bits.
pub fn numbers_are_short()
    ensures { ReadsNumbers }
{}
