//! The tokens of the linker's command files.

/// A sign.
#[derive(Clone, Copy)]
pub enum Sign {
    OpenBrace,
    CloseBrace,
    OpenParenthesis,
    CloseParenthesis,
    Colon,
    Comma,
    Equals,
    Greater,
    Star,
}

/// A keyword, in any of its spellings.
#[derive(Clone, Copy)]
pub enum Keyword {
    Memory,
    Sections,
    Page,
    Origin,
    Length,
    Load,
    Run,
}

/// The kind of a token.
#[derive(Clone, Copy)]
pub enum Kind {
    Keyword(Keyword),
    Name,
    /// A number; one above 4,294,967,295 is kept as that, which is larger than any address or length.
    Number(u32),
    /// A text that begins with a digit and is not a number.
    Malformed,
    Sign(Sign),
    /// A character that is part of no token, or the end of a text in an open comment.
    Stray,
    /// The end of the text.
    End,
}

/// What the next token has to be.
#[derive(Clone, Copy)]
pub enum Want {
    Sign(Sign),
    Keyword(Keyword),
    Name,
    /// A name, a keyword, a number, or a text that only begins as a number.
    AnyWord,
    /// `=` or `>`.
    LoadSign,
    End,
}

/// What stands at the front of a text, with its length in bytes where that may be more than one.
#[derive(Clone, Copy)]
pub enum Lexeme {
    Blank,
    Comment(usize),
    /// A comment that is not closed: the rest of the text.
    OpenComment,
    Word(usize),
    Sign(Sign),
    Stray,
}
