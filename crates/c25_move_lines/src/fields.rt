//! The fields of an old line.

ghost use Rattle.std.specs.Prelude.{◌≤◌, length};

use crate::pieces::{Piece, PieceKind};
use crate::style::Style;

/// The fields of a line: what stands in column 1, the word after it, and the rest.
#[derive(Clone, Copy)]
pub(crate) struct Fields<'a> {
    pub label: &'a str,
    pub word: &'a str,
    pub rest: &'a str,
}

/// A text up to its first blank or `;`, and from there on.
fn split_field(text: &str) -> (&str, &str) {
    match text.find(|c: char| c == ' ' || c == '\t' || c == ';') {
        Some(end) => text.split_at(end),
        None => (text, ""),
    }
}

/// A text without the blanks that begin it.
fn past_blanks(text: &str) -> &str {
    text.trim_start_matches(|c: char| c == ' ' || c == '\t')
}

/// The fields of a line.
pub(crate) fn fields_of(line: &str) -> Fields<'_> {
    let (label, rest) = split_field(line);
    let (word, rest) = split_field(past_blanks(rest));
    Fields {
        label,
        word,
        rest: past_blanks(rest),
    }
}

/// Whether the operands of a line end with a piece, after a comma or not.
fn ends_operands(style: Style, after_comma: bool, kind: PieceKind) -> bool {
    match kind {
        PieceKind::Comment => true,
        PieceKind::Blank => style == Style::Early && !after_comma,
        _ => false,
    }
}

/// How many of the pieces of a line are operands; the others are the comment.
pub(crate) fn operand_count(style: Style, pieces: &[Piece]) -> usize
    ensures { result ≤ length pieces.now }
{
    let mut after_comma = false;
    for (count, piece) in pieces.iter().enumerate() {
        if ends_operands(style, after_comma, piece.kind) {
            return count;
        }
        after_comma = piece.is_comma();
    }
    pieces.len()
}

/// A comment without the blanks and the `;` that begin it.
pub(crate) fn comment_text(text: &str) -> &str {
    text.trim_start_matches(|c: char| c == ' ' || c == '\t' || c == ';')
        .trim_end()
}
