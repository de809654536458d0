//! The lines of an old command file.

use crate::notes::NoteKind;
use c25_meaning_common::no_memory::NoMemory;
use std::alloc::Global;

/// What the lines so far leave to those that follow.
#[derive(Drop)]
pub(crate) struct Reading {
    /// Whether MEMORY or SECTIONS has begun.
    in_body: bool,
    /// Whether a comment is open.
    in_comment: bool,
    /// The names of the input sections that are taken of named objects.
    taken: Vec<String>,
}

impl Reading {
    /// Before the first line.
    pub(crate) fn new(alloc: Global) -> Reading {
        Reading {
            in_body: false,
            in_comment: false,
            taken: Vec::new(alloc),
        }
    }

    /// Passes the comments of a line.
    fn pass_comments(&mut self, line: &str) {
        let opened = line.rfind("/*");
        let closed = line.rfind("*/");
        self.in_comment = match (opened, closed) {
            (Some(opened), Some(closed)) => opened > closed,
            (Some(_), None) => true,
            (None, Some(_)) => false,
            (None, None) => self.in_comment,
        };
    }
}

/// A line as the linker reads it, and what is reported of it.
#[derive(Drop)]
pub(crate) struct CommandLine {
    pub text: String,
    pub kinds: Vec<NoteKind>,
}

impl CommandLine {
    /// A line of which nothing is reported.
    fn of(alloc: Global, text: &str) -> Result<CommandLine, NoMemory> {
        Ok(CommandLine {
            text: String::from_str(alloc, text)?,
            kinds: Vec::new(alloc),
        })
    }
}

/// Whether a line begins MEMORY or SECTIONS.
fn begins_body(line: &str) -> bool {
    let line = line.trim_start();
    line.starts_with("MEMORY") || line.starts_with("SECTIONS")
}

/// Whether a line before MEMORY and SECTIONS stays: an empty one, a comment, the entry.
fn stays(line: &str) -> bool {
    let line = line.trim();
    line.is_empty() || line.starts_with("/*") || line.starts_with("-e ")
}

/// A line before MEMORY and SECTIONS: what is named there is a word of the command line of `build`.
fn front_line(alloc: Global, line: &str) -> Result<CommandLine, NoMemory> {
    if stays(line) {
        return CommandLine::of(alloc, line);
    }
    let mut taken = CommandLine::of(alloc, "")?;
    taken.kinds.push(NoteKind::TakenOut)?;
    if !line.contains("*/") && !line.contains("/*") {
        taken.text = format!(in alloc; "{}{} {}", "/* ", line.trim(), "*/")?;
    }
    Ok(taken)
}

/// What follows the value that begins a text: up to a blank, a comma or a brace, or past a parenthesis.
fn past_value(text: &str) -> &str {
    if text.starts_with('(') {
        return match text.split_once(')') {
            Some((_, rest)) => rest,
            None => "",
        };
    }
    match text.find(|c: char| c == ' ' || c == '\t' || c == ',' || c == '}') {
        Some(end) => text.split_at(end).1,
        None => "",
    }
}

/// A line without a keyword and its value, if it has both.
fn without(alloc: Global, line: &str, keyword: &str) -> Result<Option<String>, NoMemory> {
    let Some((front, rest)) = line.split_once(keyword) else {
        return Ok(None);
    };
    let rest = rest.trim_start();
    let value = match rest.strip_prefix('=') {
        Some(value) => value.trim_start(),
        None if rest.starts_with('(') => rest,
        None => return Ok(None),
    };
    let front = front.trim_end();
    let front = front.strip_suffix(',').unwrap_or(front);
    Ok(Some(format!(in alloc; "{front}{}", past_value(value))?))
}

/// The name of the section that all parts of an input list take, and whether they name objects; none where the list is
/// empty, or takes several.
fn section_taken(list: &str) -> Option<(&str, bool)> {
    let mut taken = None;
    let mut names_objects = false;
    for part in list.split(')') {
        let part = part.trim();
        if !part.is_empty() {
            let (object, section) = part.split_once('(')?;
            names_objects = names_objects || object.trim() != "*";
            match taken {
                Some(other) if other != section.trim() => return None,
                _ => taken = Some(section.trim()),
            }
        }
    }
    Some((taken?, names_objects))
}

/// The parts of a line before, within and after its first braces.
fn braces(line: &str) -> Option<(&str, &str, &str)> {
    let (front, rest) = line.split_once('{')?;
    let (list, end) = rest.split_once('}')?;
    Some((front, list, end))
}

/// Takes the named objects out of an input list.
fn rewrite_list(
    alloc: Global,
    reading: &mut Reading,
    line: &mut CommandLine,
) -> Result<(), NoMemory> {
    let Some((front, list, end)) = braces(line.text.as_str()) else {
        return Ok(());
    };
    let Some((section, true)) = section_taken(list) else {
        return Ok(());
    };
    let name = String::from_str(alloc, section)?;
    let text = format!(in alloc; "{front}{} {}({section}) {}{end}", "{", "*", "}")?;
    let is_again = reading.taken.iter().any(|taken| taken.as_str() == section);
    line.text = text;
    line.kinds.push(if is_again {
        NoteKind::ObjectsApart
    } else {
        NoteKind::AllObjects
    })?;
    reading.taken.push(name)?;
    Ok(())
}

/// Takes a keyword with its value out of a line.
fn take_out(
    alloc: Global,
    line: &mut CommandLine,
    keyword: &str,
    kind: NoteKind,
) -> Result<(), NoMemory> {
    if let Some(text) = without(alloc, line.text.as_str(), keyword)? {
        line.text = text;
        line.kinds.push(kind)?;
    }
    Ok(())
}

/// Whether a line gives a section a run address by the name of a range.
fn runs_in_range(line: &str) -> bool {
    let Some((_, rest)) = line.split_once("run") else {
        return false;
    };
    match rest.trim_start().strip_prefix('=') {
        Some(value) => value
            .trim_start()
            .starts_with(|c: char| c.is_ascii_alphabetic()),
        None => rest.trim_start().starts_with('>'),
    }
}

/// A line of MEMORY or SECTIONS.
fn body_line(alloc: Global, reading: &mut Reading, old: &str) -> Result<CommandLine, NoMemory> {
    let mut line = CommandLine::of(alloc, old)?;
    rewrite_list(alloc, reading, &mut line)?;
    take_out(alloc, &mut line, "fill", NoteKind::Fill)?;
    take_out(alloc, &mut line, "align", NoteKind::Align)?;
    if old.contains("GROUP") || old.contains("UNION") {
        line.kinds.push(NoteKind::Group)?;
    }
    if runs_in_range(old) {
        line.kinds.push(NoteKind::RunRange)?;
    }
    if old.contains(';') {
        line.kinds.push(NoteKind::Assignment)?;
    }
    Ok(line)
}

/// A line of an old command file as the linker reads it.
pub(crate) fn command_line(
    alloc: Global,
    reading: &mut Reading,
    line: &str,
) -> Result<CommandLine, NoMemory> {
    let was_comment = reading.in_comment;
    reading.pass_comments(line);
    if was_comment {
        return CommandLine::of(alloc, line);
    }
    reading.in_body = reading.in_body || begins_body(line);
    if reading.in_body {
        body_line(alloc, reading, line)
    } else {
        front_line(alloc, line)
    }
}
