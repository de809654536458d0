//! The files that the lines of an old file copy.

use c25_meaning_common::no_memory::NoMemory;
use c25_move_lines::Style;
use c25_text::line::{first_word, is_comment_line};
use std::alloc::Global;

/// A line that copies a file: its number, counted from 1, and the name of the file.
#[derive(Clone, Copy)]
pub(crate) struct Copy<'a> {
    pub line: usize,
    pub name: &'a str,
}

impl Copy<'_> {
    /// Whether the file is one of another folder.
    pub(crate) fn is_elsewhere(&self) -> bool {
        self.name.contains('/') || self.name.contains('\\')
    }
}

/// Whether a word copies a file.
fn copies(style: Style, word: &str) -> bool {
    word.eq_ignore_ascii_case(".copy")
        || word.eq_ignore_ascii_case(".include")
        || style == Style::Early && word.eq_ignore_ascii_case("COPY")
}

/// The text up to a quote, a blank or a sign that ends a name.
fn name_at(text: &str) -> &str {
    for quote in ['"', '\''] {
        if let Some(rest) = text.strip_prefix(quote) {
            return match rest.split_once(quote) {
                Some((name, _)) => name,
                None => rest,
            };
        }
    }
    match text.find(|c: char| c == ' ' || c == '\t' || c == ';' || c == ',') {
        Some(end) => text.split_at(end).0,
        None => text,
    }
}

/// The name of the file that a line copies, if it copies one.
fn name_copied(style: Style, line: &str) -> Option<&str> {
    if is_comment_line(line.as_bytes()) {
        return None;
    }
    let word = first_word(line)?;
    if !copies(style, word) {
        return None;
    }
    let (_, operand) = line.split_once(word)?;
    let name = name_at(operand.trim());
    (!name.is_empty()).then_some(name)
}

/// The lines of a text that copy files.
pub(crate) fn copies_in(
    alloc: Global,
    style: Style,
    text: &str,
) -> Result<Vec<Copy<'_>>, NoMemory> {
    let mut copies = Vec::new(alloc);
    for (place, line) in text.lines().enumerate() {
        if let Some(name) = name_copied(style, line) {
            let line = place.saturating_add(1);
            copies.push(Copy { line, name })?;
        }
    }
    Ok(copies)
}
