//! Tokens of a line of a source, and the faults of a line's text.

use thiserror::Error;

/// What is wrong with the text of a line.
#[derive(Clone, Copy, PartialEq, Debug, Error)]
#[error("{}", self.name())]
pub enum LineFault {
    /// A label is not a name, or a name has more than 128 characters (10).
    BadLabel,
    /// A run of letters and digits that begins with a digit is not a constant (11).
    BadConstant,
    /// A quote is not closed, or single quotes do not hold exactly one character of 20h to 7Eh or a tab (12).
    OpenQuote,
    /// A character that is part of no token, or that may not stand in a mnemonic field or a string (13).
    StrayText,
}

impl LineFault {
    ghost use Rattle.std.specs.Prelude.{◌≡◌};
    ghost use Rattle.c25_meaning_language.specs.LineFaults.{line_fault_name};

    /// The fault's name, as shown to the user.
    pub fn name(&self) -> &'static str
        ensures { result.now ≡ line_fault_name self.now }
    {
        match self {
            LineFault::BadLabel => "BadLabel",
            LineFault::BadConstant => "BadConstant",
            LineFault::OpenQuote => "OpenQuote",
            LineFault::StrayText => "StrayText",
        }
    }
}

/// A sign: one or two characters.
#[derive(Clone, Copy, PartialEq, Debug)]
pub enum Sign {
    Comma,
    Dollar,
    OpenParenthesis,
    CloseParenthesis,
    Plus,
    Minus,
    Tilde,
    Star,
    Slash,
    Percent,
    ShiftLeft,
    ShiftRight,
    Less,
    LessOrEqual,
    Greater,
    GreaterOrEqual,
    Equal,
    NotEqual,
    Ampersand,
    Caret,
    Bar,
}

/// The kind of a token.
#[derive(Clone, Copy, PartialEq, Debug)]
pub enum TokenKind {
    /// A name: a letter or `_`, then letters, digits, `_` and `$`.
    Name,
    /// A `.` with a name directly after it.
    DottedName,
    /// A number.
    Constant,
    /// A character in single quotes.
    Character,
    /// A string in double quotes.
    Quoted,
    /// A sign.
    Sign(Sign),
}

/// What stands at the front of a text: a blank, a comment, a token, or a fault.
#[derive(Clone, Copy)]
pub enum Lexeme {
    /// A blank or a tab.
    Blank,
    /// The `;` of a comment.
    Comment,
    /// A token of this kind, and how many bytes it has.
    Token(TokenKind, usize),
    /// A fault: no token begins here.
    Fault(LineFault),
}
