//! Names that differ in the case of their letters alone, in one spelling.

ghost use Rattle.std.specs.Prelude.{◌≡◌, IfOk, IfSome, string_bytes, true};
ghost use Rattle.std.specs.Str.{str_eq_ignore_ascii_case};

use c25_meaning_common::no_memory::NoMemory;
use c25_move_lines::{PieceKind, pieces_of};
use c25_text::line::{first_word, is_comment_line, label_in};
use indexmap::IndexMap;
use std::alloc::Global;

/// The spellings of names, by the names in upper case.
#[derive(Drop)]
pub(crate) struct Spellings {
    names: IndexMap<String, String>,
}

/// A text in upper case.
fn in_upper_case(alloc: Global, text: &str) -> Result<String, NoMemory> {
    let mut upper = String::from_str(alloc, text)?;
    upper.make_ascii_uppercase();
    Ok(upper)
}

/// Whether a word is the name of a register or a port, in either case.
fn is_register(word: &str) -> bool {
    match word.as_bytes() {
        [b'A' | b'a', b'R' | b'r', b'0'..=b'7'] => true,
        [b'P' | b'p', b'A' | b'a', b'0'..=b'9'] => true,
        [b'P' | b'p', b'A' | b'a', b'1', b'0'..=b'5'] => true,
        _ => false,
    }
}

/// Whether the operands of a line with this word are names of symbols that other modules use or define.
fn names_symbols(word: &str) -> bool {
    [".ref", ".def", ".global", "REF", "DEF", "SREF"]
        .iter()
        .any(|name| word.eq_ignore_ascii_case(name))
}

impl Spellings {
    /// Without names.
    pub(crate) fn new(alloc: Global) -> Spellings {
        Spellings {
            names: IndexMap::new(alloc),
        }
    }

    /// Adds the spelling of a name, unless there is one.
    fn add(&mut self, alloc: Global, name: &str) -> Result<(), NoMemory> {
        let upper = in_upper_case(alloc, name)?;
        if self.names.get(upper.as_str()).is_none() {
            let name = String::from_str(alloc, name)?;
            let _ = self.names.insert(upper, name)?;
        }
        Ok(())
    }

    /// Adds the names of symbols among operands.
    fn add_operands(&mut self, alloc: Global, operands: &str) -> Result<(), NoMemory> {
        let pieces = pieces_of(alloc, operands)?;
        for piece in pieces.iter() {
            if piece.kind == PieceKind::Word {
                self.add(alloc, piece.text.as_str())?;
            }
        }
        Ok(())
    }

    /// Adds the names that a line defines, or uses of other modules.
    fn add_line(&mut self, alloc: Global, line: &str) -> Result<(), NoMemory> {
        if is_comment_line(line.as_bytes()) {
            return Ok(());
        }
        if let Ok(Some(label)) = label_in(line) {
            self.add(alloc, label)?;
        }
        let Some(word) = first_word(line) else {
            return Ok(());
        };
        if names_symbols(word) {
            if let Some((_, operands)) = line.split_once(word) {
                self.add_operands(alloc, operands)?;
            }
        }
        Ok(())
    }

    /// Adds the names of a text.
    pub(crate) fn add_text(&mut self, alloc: Global, text: &str) -> Result<(), NoMemory> {
        for line in text.lines() {
            self.add_line(alloc, line)?;
        }
        Ok(())
    }

    /// Adds a word in its spelling.
    fn push_word(&self, alloc: Global, text: &mut String, word: &str) -> Result<(), NoMemory> {
        let upper = in_upper_case(alloc, word)?;
        if is_register(word) {
            text.push_str(upper.as_str())?;
            return Ok(());
        }
        match self.names.get(upper.as_str()) {
            Some(name) => text.push_str(name.as_str())?,
            None => text.push_str(word)?,
        }
        Ok(())
    }

    /// Adds a line with its names in their spellings.
    fn push_line(&self, alloc: Global, text: &mut String, line: &str) -> Result<(), NoMemory> {
        if is_comment_line(line.as_bytes()) {
            text.push_str(line)?;
            return Ok(());
        }
        let pieces = pieces_of(alloc, line)?;
        for piece in pieces.iter() {
            match piece.kind {
                PieceKind::Word => self.push_word(alloc, text, piece.text.as_str())?,
                _ => text.push_str(piece.text.as_str())?,
            }
        }
        Ok(())
    }

    /// A text with its names in their spellings.
    fn spelled(&self, alloc: Global, text: &str) -> Result<String, NoMemory> {
        let mut spelled = String::new(alloc);
        for (place, line) in text.split('\n').enumerate() {
            if place > 0 {
                spelled.push('\n')?;
            }
            self.push_line(alloc, &mut spelled, line)?;
        }
        Ok(spelled)
    }

    /// A text with its names in their spellings, if that changes the case of letters, and nothing else.
    pub(crate) fn change(&self, alloc: Global, text: &str) -> Result<Option<String>, NoMemory>
        ensures { IfOk result (λ o. IfSome o (λ new. str_eq_ignore_ascii_case (string_bytes new) text.now ≡ true)) }
    {
        if self.names.is_empty() {
            return Ok(None);
        }
        let spelled = self.spelled(alloc, text)?;
        if spelled.as_str() != text && spelled.as_str().eq_ignore_ascii_case(text) {
            Ok(Some(spelled))
        } else {
            Ok(None)
        }
    }
}
