ghost use Rattle.record_reader.specs.LineTurns.{IsLimit};

/// The maximum number of lines of a script.
pub const MAX_LINES: u32 = 65536;

/// The maximum number of bytes of a line that are held without its newline: 512 of the line, and a
/// carriage return.
const HELD_LIMIT: usize = 513;

/// How many bytes of a line may be held without its newline, after n lines: [`HELD_LIMIT`], and
/// none of line 65,537.
pub fn limit_of(lines: u32) -> usize
    ensures { IsLimit result lines }
{
    if lines < MAX_LINES { HELD_LIMIT } else { 0 }
}
