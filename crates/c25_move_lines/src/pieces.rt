//! The pieces of the operands and the comment of an old line.

ghost use Rattle.std.specs.Prelude.{◌≡◌, ◌++◌, [], IfOk, OnOk, encode_utf8, string_bytes};
ghost use Rattle.c25_move_lines.specs.Pieces.{is_comma, text_of};

use c25_meaning_common::no_memory::NoMemory;
use std::alloc::Global;
use std::mem;

/// What a piece of a line is.
#[derive(Clone, Copy, PartialEq, Debug)]
pub enum PieceKind {
    /// Blanks and tabs.
    Blank,
    /// Letters, digits, `_`, `$`, `?` and `.`.
    Word,
    /// A text in quotes of this kind, with its quotes; it is open as long as the last quote is missing.
    Quoted { quote: char, open: bool },
    /// One character of another kind.
    Sign(char),
    /// Two characters that are one operator, such as `>>`.
    Pair,
    /// The rest of the line from a `;` on.
    Comment,
}

/// A piece of a line.
#[derive(Drop)]
pub struct Piece {
    pub kind: PieceKind,
    pub text: String,
}

fn is_blank(c: char) -> bool {
    c == ' ' || c == '\t'
}

fn is_word(c: char) -> bool {
    c.is_ascii_alphanumeric() || c == '_' || c == '$' || c == '?' || c == '.'
}

impl PieceKind {
    /// The kind of a piece that begins with a character.
    fn of(first: char) -> PieceKind {
        match first {
            ' ' | '\t' => PieceKind::Blank,
            '\'' | '"' => PieceKind::Quoted {
                quote: first,
                open: true,
            },
            ';' => PieceKind::Comment,
            _ if is_word(first) => PieceKind::Word,
            _ => PieceKind::Sign(first),
        }
    }

    /// The kind of a piece with one more character; none where the character begins the next piece.
    fn with(self, next: char) -> Option<PieceKind> {
        match self {
            PieceKind::Blank => is_blank(next).then_some(PieceKind::Blank),
            PieceKind::Word => is_word(next).then_some(PieceKind::Word),
            PieceKind::Quoted { quote, open } => (open || next == quote).then_some(
                PieceKind::Quoted {
                    quote,
                    open: open != (next == quote),
                },
            ),
            PieceKind::Sign(first) => is_pair(first, next).then_some(PieceKind::Pair),
            PieceKind::Pair => None,
            PieceKind::Comment => Some(PieceKind::Comment),
        }
    }
}

/// Whether two characters are one operator.
fn is_pair(first: char, second: char) -> bool {
    matches!(
        (first, second),
        ('>', '>') | ('<', '<') | ('>', '=') | ('<', '=') | ('=', '=') | ('!', '=')
    )
}

impl Piece {
    /// A piece without a text, before the first of a line.
    fn empty(alloc: Global) -> Piece
        ensures { string_bytes result.text ≡ [] }
    {
        Piece {
            kind: PieceKind::Blank,
            text: String::new(alloc),
        }
    }

    /// A piece of one character.
    fn of(alloc: Global, first: char) -> Result<Piece, NoMemory>
        ensures { IfOk result (λ p. string_bytes p.text ≡ encode_utf8 first) }
    {
        let mut text = String::new(alloc);
        text.push(first)?;
        Ok(Piece {
            kind: PieceKind::of(first),
            text,
        })
    }

    /// Whether the piece is a comma.
    pub fn is_comma(&self) -> bool
        ensures { result ≡ is_comma self.now.kind }
    {
        matches!(self.kind, PieceKind::Sign(','))
    }
}

/// Adds a piece, if it has a text.
fn push_piece(pieces: &mut Vec<Piece>, piece: Piece) -> Result<(), NoMemory>
    ensures { OnOk result (text_of pieces.new.items ≡ text_of pieces.old.items ++ string_bytes piece.text) }
{
    if piece.text.is_empty() {
        Ok(())
    } else {
        pieces.push(piece).map_err(NoMemory::from)
    }
}

/// Adds a character to the last piece, or begins the next one with it.
fn push_char(
    alloc: Global,
    pieces: &mut Vec<Piece>,
    last: &mut Piece,
    c: char,
) -> Result<(), NoMemory>
    ensures { OnOk result (text_of pieces.new.items ++ string_bytes last.new.text ≡ (text_of pieces.old.items ++ string_bytes last.old.text) ++ encode_utf8 c) }
{
    match last.kind.with(c) {
        Some(kind) => {
            last.kind = kind;
            last.text.push(c).map_err(NoMemory::from)
        }
        None => push_piece(pieces, mem::replace(last, Piece::of(alloc, c)?)),
    }
}

/// The pieces of a text; one after another they are the text. `NoMemory` (9) where memory runs out.
pub fn pieces_of(alloc: Global, text: &str) -> Result<Vec<Piece>, NoMemory>
    ensures { IfOk result (λ pieces. text_of pieces.items ≡ text.now) }
{
    let mut pieces = Vec::new(alloc);
    let mut last = Piece::empty(alloc);
    for c in text.chars() {
        push_char(alloc, &mut pieces, &mut last, c)?;
    }
    push_piece(&mut pieces, last)?;
    Ok(pieces)
}

/// The text that pieces are, one after another. `NoMemory` (9) where memory runs out.
pub fn text_of(alloc: Global, pieces: &[Piece]) -> Result<String, NoMemory>
    ensures { IfOk result (λ text. string_bytes text ≡ text_of pieces.now) }
{
    let mut text = String::new(alloc);
    for piece in pieces {
        text.push_str(piece.text.as_str())?;
    }
    Ok(text)
}
