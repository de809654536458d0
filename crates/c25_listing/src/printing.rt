//! How the lines of a listing are printed.

ghost use Rattle.std.specs.Prelude.{◌≡◌, ◌≤◌, ◌+◌, ◌++◌, [], OnOk, IfOk, fold, slice_index};
ghost use Rattle.std.specs.String.{string_bytes};
ghost use Rattle.c25_meaning_assembly.specs.Listing as listing;
ghost use Rattle.c25_meaning_objects.specs.Module.{words_at};
ghost use Rattle.c25_meaning_common.specs.Digits.{four_digits};
ghost use Rattle.c25_module.specs.View.{contents};
ghost use Rattle.c25_listing.specs.Flags.{flags_of, no_flags, with_flag};
ghost use Rattle.c25_listing.specs.View.{entry_of};

use crate::flags::{Flags, relocated_words};
use crate::listing::Entry;
use c25_meaning_common::no_memory::NoMemory;
use c25_module::{Body, Parts};
use c25_substitution::strings::trimmed_end;
use std::alloc::{AllocError, Global};
use std::fmt::Write;

/// A module, and which of its words have a relocation.
#[derive(Drop)]
pub(crate) struct Marked<'m> {
    parts: &'m Parts,
    flags: Flags,
    ghost told: { flags_of flags ≡ fold with_flag (no_flags (contents parts.now).sections) (contents parts.now).relocations },
}

/// A module with the flags of its words.
pub(crate) fn with_flags(alloc: Global, parts: &Parts) -> Result<Marked<'_>, NoMemory>
    ensures { IfOk result (λ m. contents m.parts.now ≡ contents parts.now) }
{
    let flags = relocated_words(alloc, parts)?;
    Ok(Marked { parts, flags })
}

/// The word at an offset of a section, or 0 where there is none.
fn word_at(parts: &Parts, section: u16, offset: u32) -> u16
    ensures { result ≡ slice_index (words_at (contents parts.now).sections section) offset }
{
    match parts.sections.get(section as usize) {
        Some(section) => match &section.body {
            Body::Initialised(words) => words.get(offset as usize).copied().unwrap_or(0),
            Body::Uninitialised(_) => 0,
        },
        None => 0,
    }
}

/// Appends a word as four hexadecimal digits.
#[tactic(auto, using(std::proofs::lemmas::Fmt::hex_byte))]
fn push_word(out: &mut String, word: u16) -> Result<(), AllocError>
    ensures { OnOk result (string_bytes out.new ≡ string_bytes out.old ++ four_digits word) }
{
    let high = word >> 8;
    let low = word % 256;
    write!(out, "{high:02X}{low:02X}")
}

/// Appends a line's number, right-aligned in six columns.
#[tactic(auto, using(crate::proofs::Columns::six_columns))]
fn push_number(out: &mut String, number: usize) -> Result<(), AllocError>
    ensures { OnOk result (string_bytes out.new ≡ string_bytes out.old ++ listing.number_column number) }
{
    write!(out, "{number:6}")
}

fn sign(is_relocated: bool) -> &'static str
    ensures { result.now ≡ listing.sign is_relocated }
{
    if is_relocated { "'" } else { " " }
}

/// Ends a line: appends it to the text without the blanks at its end, and begins another.
fn end(out: &mut String, line: &mut String) -> Result<(), AllocError>
    ensures { OnOk result ((string_bytes out.new ≡ string_bytes out.old ++ listing.listed (string_bytes line.old)) × (string_bytes line.new ≡ [])) }
{
    out.push_str(trimmed_end(line.as_str()))?;
    line.clear();
    out.push_str("\n")
}

impl<'m> Marked<'m> {
    /// Whether the word at an offset of a section has a relocation.
    #[tactic(auto, using(crate::proofs::Flagged::flagged))]
    fn is_relocated(&self, section: u16, offset: u32) -> bool
        ensures { result ≡ listing.is_relocated (contents self.now.parts.now) section offset }
    {
        self.flags.at(section, offset as usize)
    }

    /// Appends an offset, the word there, and `'` where the word has a relocation, else a blank.
    #[tactic(auto, using(crate::proofs::Columns::low_digits))]
    fn push_column(&self, line: &mut String, section: u16, offset: u32) -> Result<(), AllocError>
        ensures { OnOk result (string_bytes line.new ≡ string_bytes line.old ++ listing.word_column (contents self.now.parts.now) section offset) }
    {
        let word = word_at(self.parts, section, offset);
        let sign = sign(self.is_relocated(section, offset));
        push_word(line, (offset % 65_536) as u16)?;
        line.push_str(" ")?;
        push_word(line, word)?;
        line.push_str(sign)?;
        Ok(())
    }

    /// Appends a printed line with one word: what `line` already holds, the word's column, and a text.
    fn push_word_line(
        &self,
        out: &mut String,
        line: &mut String,
        section: u16,
        offset: u32,
        text: &str,
    ) -> Result<(), AllocError>
        ensures { OnOk result ((string_bytes out.new ≡ string_bytes out.old ++ listing.word_line (contents self.now.parts.now) section offset (string_bytes line.old) text.now) × (string_bytes line.new ≡ [])) }
    {
        line.push_str(" ")?;
        self.push_column(line, section, offset)?;
        line.push_str(" ")?;
        line.push_str(text)?;
        end(out, line)
    }

    /// Appends a printed line for each further word of an entry.
    fn push_further(
        &self,
        out: &mut String,
        line: &mut String,
        section: u16,
        offset: u32,
        count: u32,
    ) -> Result<(), AllocError>
        requires empty { string_bytes line.old ≡ [] }
        requires within { offset + count ≤ 65536 }
        ensures { OnOk result ((string_bytes out.new ≡ string_bytes out.old ++ listing.further (contents self.now.parts.now) section offset count) × (string_bytes line.new ≡ [])) }
    {
        for index in 0..count {
            line.push_str("      ")?;
            self.push_word_line(out, line, section, offset + index, "")?;
        }
        Ok(())
    }

    /// Appends the printed lines of an entry.
    pub(crate) fn push_entry(
        &self,
        out: &mut String,
        line: &mut String,
        entry: &Entry<'_>,
    ) -> Result<(), AllocError>
        requires { string_bytes line.old ≡ [] }
        ensures { OnOk result ((string_bytes out.new ≡ string_bytes out.old ++ listing.entry_text (contents self.now.parts.now) (entry_of entry.now)) × (string_bytes line.new ≡ [])) }
    {
        push_number(line, entry.line)?;
        if entry.count == 0 {
            line.push_str("            ")?;
            line.push_str(entry.text.as_str())?;
            return end(out, line);
        }
        let text = entry.text.as_str();
        self.push_word_line(out, line, entry.section, entry.offset, text)?;
        self.push_further(out, line, entry.section, entry.offset + 1, entry.count - 1)
    }
}
