ghost use Rattle.report_lines.specs.Guess.{read_line};
ghost use Rattle.report_lines.specs.Says.{ReadsLines};

/// A law, stated by its contract: a line is read as a form if and only if that form is printed as
/// the line.
pub fn reads_lines()
    ensures { ReadsLines read_line }
{}
