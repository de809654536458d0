//! The lines of old sources that reserve words of `.bss`.

use c25_move_files::gathered::Gathered;
use c25_move_files::old::OldFile;
use c25_text::first_word;

/// The operands of a line of `.bss`, with what follows them.
fn bss_operands(line: &str) -> Option<&str> {
    let word = first_word(line)?;
    if !word.eq_ignore_ascii_case(".bss") {
        return None;
    }
    let (_, operands) = line.split_once(word)?;
    Some(operands.trim_start())
}

/// Whether operands are three or more.
fn are_three(operands: &str) -> bool {
    match operands.split_once(',') {
        Some((_, rest)) => rest.contains(','),
        None => false,
    }
}

/// Whether a text has a line that may reserve a block.
fn text_has_block(text: &str) -> bool {
    for line in text.lines() {
        if let Some(operands) = bss_operands(line) {
            if are_three(operands) {
                return true;
            }
        }
    }
    false
}

/// Whether one of the old files has a line that may reserve a block.
pub(crate) fn has_block(gathered: &Gathered) -> bool {
    for file in &gathered.files {
        if text_has_block(file.text.as_str()) {
            return true;
        }
    }
    false
}

/// Whether one of the old files has this text.
pub(crate) fn is_in_texts(gathered: &Gathered, text: &str) -> bool {
    for file in &gathered.files {
        if file.text.as_str().contains(text) {
            return true;
        }
    }
    false
}

/// Whether operands of `.bss` are of this name.
fn are_of(operands: &str, name: &str) -> bool {
    match operands.strip_prefix(name) {
        Some(rest) => rest.trim_start().starts_with(','),
        None => false,
    }
}

/// A line of an old file, counted from 1.
#[derive(Clone, Copy)]
pub(crate) struct OldPlace<'a> {
    pub file: &'a str,
    pub line: usize,
}

/// The first line of a file that reserves words of `.bss` under a name.
fn line_in<'a>(file: &'a OldFile, name: &str) -> Option<OldPlace<'a>> {
    let mut number = 0_usize;
    for line in file.text.as_str().lines() {
        number = number.saturating_add(1);
        if let Some(operands) = bss_operands(line) {
            if are_of(operands, name) {
                return Some(OldPlace {
                    file: file.name.as_str(),
                    line: number,
                });
            }
        }
    }
    None
}

/// Whether the word of a line is `.bss`, or `.copy`, whose file may have lines of `.bss`.
fn may_reserve(line: &str) -> bool {
    match first_word(line) {
        Some(word) => word.eq_ignore_ascii_case(".bss") || word.eq_ignore_ascii_case(".copy"),
        None => false,
    }
}

/// The last line of a file that may reserve words of `.bss`; its first line where there is none.
fn last_in(file: &OldFile) -> usize {
    let mut number = 0_usize;
    let mut last = 1_usize;
    for line in file.text.as_str().lines() {
        number = number.saturating_add(1);
        if may_reserve(line) {
            last = number;
        }
    }
    last
}

/// The first line of copied files that reserves words of `.bss` under a name.
fn copied_line<'a>(gathered: &'a Gathered, name: &str) -> Option<OldPlace<'a>> {
    for (number, file) in gathered.files.iter().enumerate() {
        if number >= gathered.sources {
            if let Some(place) = line_in(file, name) {
                return Some(place);
            }
        }
    }
    None
}

/// The first line of the source of this number, or else of a copied file, that reserves words of `.bss` under a name; the
/// first line of the source where there is none, as where a macro's expansion has it.
pub(crate) fn line_of_name<'a>(gathered: &'a Gathered, source: usize, name: &str) -> OldPlace<'a> {
    let Some(file) = gathered.files.get(source) else {
        return OldPlace { file: "", line: 1 };
    };
    match line_in(file, name) {
        Some(place) => place,
        None => match copied_line(gathered, name) {
            Some(place) => place,
            None => OldPlace {
                file: file.name.as_str(),
                line: 1,
            },
        },
    }
}

/// The last line of the source of this number that may reserve words of `.bss`.
pub(crate) fn last_line(gathered: &Gathered, source: usize) -> OldPlace<'_> {
    match gathered.files.get(source) {
        Some(file) => OldPlace {
            file: file.name.as_str(),
            line: last_in(file),
        },
        None => OldPlace { file: "", line: 1 },
    }
}
