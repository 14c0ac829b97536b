ghost use Rattle.std.specs.Prelude.{◌≡◌, ℕ, ◌+◌, ◌<◌, ◌≤◌, ◌^◌, ◌++◌, ◌∷◌, ◌||◌, ◌==◌, [], true, false, length, take, drop, option_map, None, IfOk, OnOk, IsTrue};
ghost use Rattle.conf_lex.specs.Piece.{at_line_end, begins_with, join_at, join_bytes, goes_on};
ghost use Rattle.conf_lex.specs.Reading.{run_of, rest_of_line, unit_at};
ghost use Rattle.conf_lex.specs.Rules.{newlines, rule_at};
ghost use Rattle.conf_lex.specs.Lexing.{before_nul, nul_line, is_bracket_end, is_escape, begins_white, TakesJoin, TakesUnit, TakesUnits, TakesPiece, TakesPieces, EndsLine, GivesLine, Gives, found_tokens, found_open, fault_at, answer_at};

use crate::prefix::{
    at_end, at_line_end, is_bracket_end, is_escape, join_length, line_length, run_length,
};
use crate::token::{LexFault, RawRule, RawRules, Token, Tokens};
use pam_base::{FaultKind, NoMemory, Refuse, Text, is_white};
use std::alloc::Global;

/// The maximum length of a joined line in bytes, without its ending newline.
const MAX_LINE: usize = 4096;

/// The rest of a text, and the number of the physical line in which it begins. It is read up to the
/// first NUL byte, as if the text ended there, and never past it.
#[derive(Drop)]
pub struct Lexer<'a> {
    pub rest: &'a [u8],
    pub line: u32,
    // No line has a number of 2^32 or more.
    ghost fits: { line + length rest.now < 2 ^ 32 },
}

/// A piece of a joined line.
#[derive(Drop)]
pub enum LinePiece {
    /// White space, a join or a comment.
    Blank,
    Token(Token),
    /// A bracket that is still open at the end of the line.
    OpenBracket,
}

/// The part of a joined line that has been read: its tokens, and whether a bracket is open at its
/// end.
#[derive(Drop)]
pub struct Line {
    pub tokens: Tokens,
    pub opened: bool,
}

/// The fault of a joined line of n bytes that begins in this physical line.
fn line_fault(first: u32, length: usize, opened: bool) -> Option<LexFault>
    ensures { result ≡ fault_at first length opened }
{
    if length > MAX_LINE {
        Some(LexFault {
            line: first,
            kind: FaultKind::RuleTooLong,
        })
    } else if opened {
        Some(LexFault {
            line: first,
            kind: FaultKind::OpenBracket,
        })
    } else {
        None
    }
}

impl Line {
    /// Adds the next piece.
    fn add(&mut self, found: LinePiece) -> Result<(), NoMemory>
        ensures tokens { OnOk result (self.new.tokens ≡ self.old.tokens ++ found_tokens found) }
        ensures opened { OnOk result (self.new.opened ≡ (self.old.opened || found_open found)) }
    {
        match found {
            LinePiece::Blank => {}
            LinePiece::Token(token) => self.tokens.push(token)?,
            LinePiece::OpenBracket => self.opened = true,
        }
        Ok(())
    }
}

impl<'a> Lexer<'a> {
    ghost use Rattle.conf_lex.specs.Moving.{Moves};

    /// Skips the first n bytes, which contain this many newlines.
    fn skip(&mut self, n: usize, lines: u32)
        requires within { n ≤ length (before_nul self.old.rest.now) }
        requires lines { lines ≡ newlines (take n (before_nul self.old.rest.now)) }
        ensures rest { before_nul self.new.rest.now ≡ drop n (before_nul self.old.rest.now) }
        ensures line { self.new.line ≡ self.old.line + lines }
        ensures moves { Moves self.old self.new }
    {
        self.rest = &self.rest[n..];
        self.line += lines;
    }

    /// Skips the join at the beginning, if there is one.
    fn join(&mut self) -> bool
        ensures taken { TakesJoin result (before_nul self.old.rest.now)
            (before_nul self.new.rest.now)
            self.old.line self.new.line }
        ensures moves { Moves self.old self.new }
    {
        match join_length(self.rest) {
            Some(n) => {
                self.skip(n, 1);
                true
            }
            None => false,
        }
    }

    /// Reads one unit of a bracket, and returns the byte that it means; None at the end of the
    /// bracket or of the line.
    fn unit(&mut self) -> Option<u8>
        ensures taken { TakesUnit result (before_nul self.old.rest.now)
            (before_nul self.new.rest.now)
            self.old.line self.new.line }
        ensures moves { Moves self.old self.new }
    {
        if self.join() {
            return Some(b' ');
        }
        if is_bracket_end(self.rest) {
            return None;
        }
        if is_escape(self.rest) {
            self.skip(2, 0);
            return Some(b']');
        }
        let byte = self.rest[0];
        self.skip(1, 0);
        Some(byte)
    }

    /// Reads the units of a bracket, up to its end or that of the line, and returns their bytes.
    fn units(&mut self, alloc: Global) -> Result<Text, NoMemory>
        ensures taken { IfOk result (λ text. TakesUnits text (before_nul self.old.rest.now)
            (before_nul self.new.rest.now) self.old.line self.new.line) }
        ensures ends { OnOk result (unit_at (before_nul self.new.rest.now) ≡ None) }
        ensures moves { Moves self.old self.new }
    {
        let mut text = Text::new(alloc);
        while let Some(byte) = self.unit() {
            text.push(byte)?;
        }
        Ok(text)
    }

    /// Reads a bracket.
    fn bracket(&mut self, alloc: Global) -> Result<LinePiece, NoMemory>
        requires bracket { IsTrue (begins_with 91 (before_nul self.old.rest.now)) }
        ensures taken { IfOk result (λ found. TakesPiece found (before_nul self.old.rest.now)
            (before_nul self.new.rest.now) self.old.line self.new.line) }
        ensures moves { Moves self.old self.new }
    {
        self.skip(1, 0);
        let text = self.units(alloc)?;
        if at_line_end(self.rest) {
            return Ok(LinePiece::OpenBracket);
        }
        self.skip(1, 0);
        Ok(LinePiece::Token(Token {
            bracketed: true,
            text,
        }))
    }

    /// Reads a plain token.
    fn plain(&mut self, alloc: Global) -> Result<LinePiece, NoMemory>
        requires on { goes_on (before_nul self.old.rest.now) ≡ true }
        requires no_bracket { begins_with 91 (before_nul self.old.rest.now) ≡ false }
        ensures taken { IfOk result (λ found. TakesPiece found (before_nul self.old.rest.now)
            (before_nul self.new.rest.now) self.old.line self.new.line) }
        ensures moves { Moves self.old self.new }
    {
        let length = run_length(self.rest);
        let run = &self.rest[..length];
        self.skip(length, 0);
        Ok(LinePiece::Token(Token {
            bracketed: false,
            text: Text::from_bytes(alloc, run)?,
        }))
    }

    /// Skips a comment.
    fn comment(&mut self) -> LinePiece
        requires hash { IsTrue (begins_with 35 (before_nul self.old.rest.now)) }
        ensures taken { TakesPiece result (before_nul self.old.rest.now)
            (before_nul self.new.rest.now)
            self.old.line self.new.line }
        ensures moves { Moves self.old self.new }
    {
        let length = line_length(self.rest);
        self.skip(length, 0);
        LinePiece::Blank
    }

    /// Skips white space.
    fn white(&mut self) -> LinePiece
        requires white { IsTrue (begins_white (before_nul self.old.rest.now)) }
        ensures taken { TakesPiece result (before_nul self.old.rest.now)
            (before_nul self.new.rest.now)
            self.old.line self.new.line }
        ensures moves { Moves self.old self.new }
    {
        self.skip(1, 0);
        LinePiece::Blank
    }

    /// Reads the next piece of a joined line.
    fn piece(&mut self, alloc: Global) -> Result<LinePiece, NoMemory>
        requires within { at_line_end (before_nul self.old.rest.now) ≡ false }
        ensures taken { IfOk result (λ found. TakesPiece found (before_nul self.old.rest.now)
            (before_nul self.new.rest.now) self.old.line self.new.line) }
        ensures moves { Moves self.old self.new }
    {
        if self.join() {
            return Ok(LinePiece::Blank);
        }
        match self.rest[0] {
            byte if is_white(byte) => Ok(self.white()),
            b'#' => Ok(self.comment()),
            b'[' => self.bracket(alloc),
            _ => self.plain(alloc),
        }
    }

    /// Reads a joined line, up to its ending newline or the end.
    fn pieces(&mut self, alloc: Global) -> Result<Line, NoMemory>
        ensures taken { IfOk result (λ line. TakesPieces line (before_nul self.old.rest.now)
            (before_nul self.new.rest.now) self.old.line self.new.line) }
        ensures ends { OnOk result (at_line_end (before_nul self.new.rest.now) ≡ true) }
        ensures moves { Moves self.old self.new }
    {
        let mut line = Line {
            tokens: Tokens::new(alloc),
            opened: false,
        };
        while !at_line_end(self.rest) {
            let found = self.piece(alloc)?;
            line.add(found)?;
        }
        Ok(line)
    }

    /// Skips the newline that ends a joined line, unless the text ends here.
    fn newline(&mut self)
        requires ends { at_line_end (before_nul self.old.rest.now) ≡ true }
        ensures taken { EndsLine (before_nul self.old.rest.now) (before_nul self.new.rest.now)
            self.old.line self.new.line }
        ensures moves { Moves self.old self.new }
    {
        if !at_end(self.rest) {
            self.skip(1, 1);
        }
    }

    /// Reads a joined line with its newline, and returns its tokens or its fault.
    fn rule(&mut self, alloc: Global) -> Result<Tokens, Refuse<LexFault>>
        requires some { 0 < length (before_nul self.old.rest.now) }
        ensures given { GivesLine result (answer_at self.old.line
            (before_nul self.old.rest.now)) self.old.line
            (answer_at self.new.line (before_nul self.new.rest.now)) }
        ensures shorter { OnOk result
            (length (before_nul self.new.rest.now) < length (before_nul self.old.rest.now)) }
        ensures moves { Moves self.old self.new }
    {
        let first = self.line;
        let length = self.rest.len();
        let line = self.pieces(alloc)?;
        match line_fault(first, length - self.rest.len(), line.opened) {
            Some(fault) => Err(Refuse::Named(fault)),
            None => {
                self.newline();
                Ok(line.tokens)
            }
        }
    }

    /// Reads the joined lines up to the end, and returns their rules; stops at the first line that
    /// has a fault.
    pub fn rules(&mut self, alloc: Global) -> Result<RawRules, Refuse<LexFault>>
        ensures given { Gives result (answer_at self.old.line (before_nul self.old.rest.now)) }
        ensures moves { Moves self.old self.new }
    {
        let mut rules = RawRules::new(alloc);
        while !at_end(self.rest) {
            let line = self.line;
            let tokens = self.rule(alloc)?;
            add_rule(&mut rules, line, tokens)?;
        }
        Ok(rules)
    }

    /// The physical line of the first NUL byte in the rest of the text, if there is one.
    pub fn nul_line(&self) -> Option<u32>
        ensures { result ≡ nul_line self.now.line self.now.rest.now }
    {
        let mut line = self.line;
        for byte in self.rest {
            match *byte {
                0 => return Some(line),
                b'\n' => line += 1,
                _ => {}
            }
        }
        None
    }
}

/// Adds the rule of these tokens, if there are any.
fn add_rule(rules: &mut RawRules, line: u32, tokens: Tokens) -> Result<(), NoMemory>
    ensures { OnOk result (rules.new ≡ rules.old ++ rule_at line tokens) }
{
    if !tokens.is_empty() {
        rules.push(RawRule { line, tokens })?;
    }
    Ok(())
}
