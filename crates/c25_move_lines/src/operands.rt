//! The constants and names within the operands of a line.

use crate::around::{Around, local_digit, local_name};
use crate::constants::{characters, digits_of_c, hexadecimal, is_hexadecimal};
use crate::pieces::{Piece, PieceKind};
use crate::rule::Rule;
use c25_meaning_common::no_memory::NoMemory;
use std::alloc::Global;

/// What the operands so far end with.
#[derive(Clone, Copy, PartialEq, Debug)]
enum Before {
    /// An operator, a comma or nothing: an operand may begin.
    Open,
    /// The `>` of a hexadecimal constant.
    Greater,
    /// An operand.
    Operand,
}

/// Adds a rule to those that are reported, unless it is there.
pub(crate) fn note(rules: &mut Vec<Rule>, rule: Rule) -> Result<(), NoMemory> {
    if !rules.contains(&rule) {
        rules.push(rule)?;
    }
    Ok(())
}

/// Whether a piece is a word of hexadecimal digits.
fn is_digits(piece: Option<&Piece>) -> bool {
    match piece {
        Some(piece) => piece.kind == PieceKind::Word && is_hexadecimal(piece.text.as_str()),
        None => false,
    }
}

/// What the operands end with after a piece.
fn after(before: Before, piece: &Piece) -> Before {
    match piece.kind {
        PieceKind::Blank => before,
        PieceKind::Word | PieceKind::Quoted { .. } => Before::Operand,
        PieceKind::Sign(sign) if sign == ')' || sign == ':' || sign == '#' => Before::Operand,
        _ => Before::Open,
    }
}

/// What takes the place of a word, and the rule by which it does; none where the word stays.
fn word_text(
    alloc: Global,
    around: &Around<'_>,
    block: usize,
    before: Before,
    word: &str,
) -> Result<Option<(String, Rule)>, NoMemory> {
    if before == Before::Greater {
        return Ok(Some((hexadecimal(alloc, word)?, Rule::Hexadecimal)));
    }
    if let Some(digits) = digits_of_c(word) {
        return Ok(Some((hexadecimal(alloc, digits)?, Rule::Hexadecimal)));
    }
    match local_digit(word) {
        Some(digit) => Ok(Some((local_name(alloc, around, block, digit)?, Rule::LocalLabel))),
        None => Ok(None),
    }
}

/// What takes the place of a piece, and the rule by which it does; none where the piece stays.
fn piece_text(
    alloc: Global,
    around: &Around<'_>,
    block: usize,
    before: Before,
    piece: &Piece,
) -> Result<Option<(String, Rule)>, NoMemory> {
    match piece.kind {
        PieceKind::Word => word_text(alloc, around, block, before, piece.text.as_str()),
        PieceKind::Quoted { .. } => match characters(alloc, piece.text.as_str())? {
            Some(text) => Ok(Some((text, Rule::Characters))),
            None => Ok(None),
        },
        _ => Ok(None),
    }
}

/// Adds a piece as the assembler reads it.
fn push_moved(
    alloc: Global,
    moved: &mut Vec<Piece>,
    done: &mut Vec<Rule>,
    piece: &Piece,
    new: Option<(String, Rule)>,
) -> Result<(), NoMemory> {
    match new {
        Some((text, rule)) => {
            note(done, rule)?;
            moved.push(Piece {
                kind: PieceKind::Word,
                text,
            })?;
        }
        None => moved.push(Piece {
            kind: piece.kind,
            text: String::from_str(alloc, piece.text.as_str())?,
        })?,
    }
    Ok(())
}

/// The pieces of operands with the constants and the local labels as the assembler reads them, and the rules by which
/// they changed.
pub(crate) fn moved_pieces(
    alloc: Global,
    around: &Around<'_>,
    block: usize,
    pieces: &[Piece],
    done: &mut Vec<Rule>,
) -> Result<Vec<Piece>, NoMemory> {
    let mut moved = Vec::new(alloc);
    let mut before = Before::Open;
    for (place, piece) in pieces.iter().enumerate() {
        let is_greater = piece.kind == PieceKind::Sign('>');
        if is_greater && before == Before::Open && is_digits(pieces.get(place + 1)) {
            before = Before::Greater;
        } else {
            let new = piece_text(alloc, around, block, before, piece)?;
            push_moved(alloc, &mut moved, done, piece, new)?;
            before = after(before, piece);
        }
    }
    Ok(moved)
}
