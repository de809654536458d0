//! Strings and names of files in quotes.

use crate::draft::Draft;
use crate::operands::note;
use crate::pieces::{Piece, PieceKind};
use crate::rule::Rule;
use c25_meaning_common::no_memory::NoMemory;
use std::alloc::Global;

/// The inside of a text in single quotes, if it is one.
fn inside(text: &str) -> Option<&str> {
    text.strip_prefix('\'')?.strip_suffix('\'')
}

/// A text in double quotes; left where it has one.
fn quoted(alloc: Global, draft: &mut Draft, text: &str) -> Result<String, NoMemory> {
    if text.contains('"') {
        note(&mut draft.left, Rule::Quotes)?;
    }
    note(&mut draft.done, Rule::Quotes)?;
    Ok(format!(in alloc; "{}{text}{}", '"', '"')?)
}

/// An operand that is one string or name: `'..'` and a name without quotes get double quotes.
pub(crate) fn one_string(
    alloc: Global,
    draft: &mut Draft,
    operand: &str,
) -> Result<String, NoMemory> {
    let operand = operand.trim();
    if operand.starts_with('"') || operand.is_empty() {
        return Ok(String::from_str(alloc, operand)?);
    }
    quoted(alloc, draft, inside(operand).unwrap_or(operand))
}

/// Operands with each string in double quotes.
pub(crate) fn strings(
    alloc: Global,
    draft: &mut Draft,
    pieces: &[Piece],
) -> Result<String, NoMemory> {
    let mut text = String::new(alloc);
    for piece in pieces {
        match inside(piece.text.as_str()) {
            Some(string) => text.push_str(quoted(alloc, draft, string)?.as_str())?,
            None => text.push_str(piece.text.as_str())?,
        }
    }
    Ok(text)
}

/// Whether a piece is a string in double quotes.
pub(crate) fn is_string(piece: &Piece) -> bool {
    match piece.kind {
        PieceKind::Quoted { quote, .. } => quote == '"',
        _ => false,
    }
}

/// The characters of a string, each as a constant, with commas between them.
pub(crate) fn characters_of(alloc: Global, string: &str) -> Result<String, NoMemory> {
    let mut text = String::new(alloc);
    for c in string.trim_matches('"').chars() {
        if !text.is_empty() {
            text.push(',')?;
        }
        if c == '\'' {
            text.push_str("''''")?;
        } else {
            text.push_str(format!(in alloc; "{}{c}{}", '\'', '\'')?.as_str())?;
        }
    }
    Ok(text)
}
