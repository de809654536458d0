//! A line that is written anew.

use crate::change::Change;
use crate::rule::Rule;
use c25_meaning_common::no_memory::NoMemory;
use std::alloc::Global;

/// A line that is written anew, and the rules by which it is.
#[derive(Drop)]
pub(crate) struct Draft {
    pub label: String,
    pub word: String,
    pub operands: String,
    pub comment: String,
    pub done: Vec<Rule>,
    pub left: Vec<Rule>,
}

/// Adds blanks to a text until it has this many bytes.
fn pad(text: &mut String, width: usize) -> Result<(), NoMemory> {
    for _ in text.len()..width {
        text.push(' ')?;
    }
    Ok(())
}

/// A line with these fields: the word in column 9, the operands in column 17.
pub(crate) fn line_of(
    alloc: Global,
    label: &str,
    word: &str,
    operands: &str,
) -> Result<String, NoMemory> {
    let mut line = String::from_str(alloc, label)?;
    pad(&mut line, 7)?;
    line.push(' ')?;
    line.push_str(word)?;
    pad(&mut line, 15)?;
    line.push(' ')?;
    line.push_str(operands)?;
    Ok(String::from_str(alloc, line.as_str().trim_end())?)
}

/// A line that stays as a comment.
pub(crate) fn comment_line(alloc: Global, line: &str) -> Result<String, NoMemory> {
    Ok(format!(in alloc; "{} {}", "*", line.trim())?)
}

impl Draft {
    /// Adds what a directive was to the comment.
    pub(crate) fn add_comment(
        &mut self,
        alloc: Global,
        word: &str,
        operands: &str,
    ) -> Result<(), NoMemory> {
        if !self.comment.is_empty() {
            self.comment.push(' ')?;
        }
        self.comment
            .push_str(format!(in alloc; "{word} {operands}")?.as_str())?;
        Ok(())
    }

    /// The line, with its comment.
    pub(crate) fn line(&self, alloc: Global) -> Result<String, NoMemory> {
        let mut line = line_of(
            alloc,
            self.label.as_str(),
            self.word.as_str(),
            self.operands.as_str(),
        )?;
        if !self.comment.is_empty() {
            pad(&mut line, 31)?;
            line.push_str(" ; ")?;
            line.push_str(self.comment.as_str())?;
        }
        Ok(line)
    }

    /// The change to these lines.
    pub(crate) fn into_lines(self, lines: Vec<String>) -> Change {
        Change {
            lines,
            done: self.done,
            left: self.left,
        }
    }

    /// The change to one line, that of the draft.
    pub(crate) fn into_line(self, alloc: Global) -> Result<Change, NoMemory> {
        let mut lines = Vec::new(alloc);
        lines.push(self.line(alloc)?)?;
        Ok(self.into_lines(lines))
    }

    /// The change to a comment line.
    pub(crate) fn into_comment(self, alloc: Global, line: &str) -> Result<Change, NoMemory> {
        let mut lines = Vec::new(alloc);
        lines.push(comment_line(alloc, line)?)?;
        Ok(self.into_lines(lines))
    }
}
