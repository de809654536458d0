//! What becomes of a line by the directive that it has.

ghost use Rattle.std.specs.Prelude.{◌≡◌, OnOk};

use crate::around::{Address, Around, LongOrder, Progress};
use crate::change::Change;
use crate::directives::Work;
use crate::draft::{comment_line, line_of};
use crate::floats::float_words;
use crate::job::Job;
use crate::operands::note;
use crate::pieces::{Piece, PieceKind, text_of};
use crate::quotes::{characters_of, is_string, one_string, strings};
use crate::rule::Rule;
use c25_meaning_common::no_memory::NoMemory;
use c25_text::constant_value;
use std::alloc::Global;

/// The number of a register's or a port's name, if a label is one, in either case.
fn register_number(label: &str) -> Option<u32> {
    match label.as_bytes() {
        [b'A' | b'a', b'R' | b'r', d @ b'0'..=b'7'] => Some(u32::from(*d - b'0')),
        [b'P' | b'p', b'A' | b'a', d @ b'0'..=b'9'] => Some(u32::from(*d - b'0')),
        [b'P' | b'p', b'A' | b'a', b'1', d @ b'0'..=b'5'] => Some(10 + u32::from(*d - b'0')),
        _ => None,
    }
}

/// Whether a text is a constant of this value.
fn is_number(text: &str, number: u32) -> bool {
    match text.as_bytes().first() {
        Some(digit) => digit.is_ascii_digit() && constant_value(text.as_bytes()) == number,
        None => false,
    }
}

/// How many of the pieces come before a comma of this number, counted from 0.
fn before_comma(pieces: &[Piece], number: usize) -> Option<usize> {
    let mut commas = 0_usize;
    for (place, piece) in pieces.iter().enumerate() {
        if piece.is_comma() {
            if commas == number {
                return Some(place);
            }
            commas = commas.saturating_add(1);
        }
    }
    None
}

/// The two words of a value of 32 bits.
fn two_words(alloc: Global, order: Option<LongOrder>, value: &str) -> Result<String, NoMemory> {
    if order == Some(LongOrder::High) {
        Ok(format!(in alloc; "{}{value})>>16&0FFFFh,({value})&0FFFFh", "(")?)
    } else {
        Ok(format!(in alloc; "{}{value})&0FFFFh,({value})>>16&0FFFFh", "(")?)
    }
}

impl Job {
    /// The operands as expressions.
    fn as_expressions(
        mut self,
        alloc: Global,
        around: &Around<'_>,
        progress: &Progress,
    ) -> Result<Change, NoMemory> {
        self.draft.operands = self.expressions(alloc, around, progress.blocks)?;
        self.draft.into_line(alloc)
    }

    /// The operand as one string.
    fn as_string(mut self, alloc: Global, is_library: bool) -> Result<Change, NoMemory> {
        let text = text_of(alloc, self.operands.as_slice())?;
        self.draft.operands = one_string(alloc, &mut self.draft, text.as_str())?;
        if is_library {
            self.draft.word = String::from_str(alloc, ".copy")?;
            note(&mut self.draft.done, Rule::Library)?;
            note(&mut self.draft.left, Rule::Library)?;
        }
        self.draft.into_line(alloc)
    }

    /// The operands as strings.
    fn as_strings(mut self, alloc: Global) -> Result<Change, NoMemory> {
        self.draft.operands = strings(alloc, &mut self.draft, self.operands.as_slice())?;
        self.draft.into_line(alloc)
    }

    /// `.byte`: strings as their characters.
    fn as_bytes(
        mut self,
        alloc: Global,
        around: &Around<'_>,
        progress: &Progress,
    ) -> Result<Change, NoMemory> {
        for piece in self.operands.iter_mut() {
            if is_string(piece) {
                piece.text = characters_of(alloc, piece.text.as_str())?;
                piece.kind = PieceKind::Word;
                note(&mut self.draft.done, Rule::ByteString)?;
            }
        }
        self.as_expressions(alloc, around, progress)
    }

    /// `.word`: a string is left.
    fn as_words(
        mut self,
        alloc: Global,
        around: &Around<'_>,
        progress: &Progress,
    ) -> Result<Change, NoMemory> {
        if self.operands.iter().any(|piece| is_string(piece)) {
            note(&mut self.draft.left, Rule::ByteString)?;
        }
        self.as_expressions(alloc, around, progress)
    }

    /// `.set`: the name of a register or a port is taken out.
    fn as_equate(
        mut self,
        alloc: Global,
        around: &Around<'_>,
        progress: &Progress,
        line: &str,
    ) -> Result<Change, NoMemory> {
        let value = self.expressions(alloc, around, progress.blocks)?;
        match register_number(self.draft.label.as_str()) {
            Some(number) => {
                if is_number(value.as_str().trim(), number) {
                    note(&mut self.draft.done, Rule::Register)?;
                } else {
                    note(&mut self.draft.left, Rule::Register)?;
                }
                self.draft.into_comment(alloc, line)
            }
            None => {
                self.draft.operands = value;
                self.draft.into_line(alloc)
            }
        }
    }

    /// `AORG`, `.asect`: a section, whose address is put aside.
    fn as_address(
        mut self,
        alloc: Global,
        around: &Around<'_>,
        progress: &mut Progress,
    ) -> Result<Change, NoMemory>
        ensures { OnOk result (progress.new.blocks ≡ progress.old.blocks) }
    {
        let value = self.expressions(alloc, around, progress.blocks)?;
        let (section, address) = match value.as_str().split_once(',') {
            Some((name, address)) if self.work == Work::NamedOrigin => (
                String::from_str(alloc, name.trim().trim_matches('"'))?,
                String::from_str(alloc, address.trim())?,
            ),
            _ => (
                format!(in alloc; "{}{}", "org", progress.addresses.len())?,
                String::from_str(alloc, value.as_str().trim())?,
            ),
        };
        if !address
            .as_str()
            .as_bytes()
            .iter()
            .all(|b| b.is_ascii_hexdigit() || *b == b'h')
        {
            note(&mut self.draft.left, Rule::Address)?;
        }
        note(&mut self.draft.done, Rule::Address)?;
        self.draft.word = String::from_str(alloc, ".sect")?;
        self.draft.operands = format!(in alloc; "{}{}{}", '"', section.as_str(), '"')?;
        progress.addresses.push(Address { section, address })?;
        self.draft.into_line(alloc)
    }

    /// `PSEG`, `DSEG` and the like: a section.
    fn as_section(mut self, alloc: Global, section: &str) -> Result<Change, NoMemory> {
        note(&mut self.draft.done, Rule::Segment)?;
        if self.work == Work::Data {
            note(&mut self.draft.left, Rule::Segment)?;
        }
        self.draft.word = String::from_str(alloc, section)?;
        self.draft.into_line(alloc)
    }

    /// A comment line, after a line with the label.
    fn as_comment(mut self, alloc: Global, rule: Rule, line: &str) -> Result<Change, NoMemory> {
        note(&mut self.draft.done, rule)?;
        let mut lines = Vec::new(alloc);
        if !self.draft.label.is_empty() {
            lines.push(String::from_str(alloc, self.draft.label.as_str())?)?;
        }
        lines.push(comment_line(alloc, line)?)?;
        Ok(self.draft.into_lines(lines))
    }

    /// `DORG`: a dummy section begins.
    fn as_dummy(
        mut self,
        alloc: Global,
        around: &Around<'_>,
        progress: &mut Progress,
        line: &str,
    ) -> Result<Change, NoMemory>
        ensures { OnOk result (progress.new.blocks ≡ progress.old.blocks) }
    {
        let address = self.expressions(alloc, around, progress.blocks)?;
        progress.dummy = Some(address);
        self.as_comment(alloc, Rule::Dummy, line)
    }

    /// `BSS` in a dummy section, whose next word is at this address: the label is the address.
    fn as_dummy_words(
        mut self,
        alloc: Global,
        count: &str,
        progress: &mut Progress,
        address: String,
        line: &str,
    ) -> Result<Change, NoMemory>
        ensures { OnOk result (progress.new.blocks ≡ progress.old.blocks) }
    {
        progress.dummy = Some(format!(in alloc; "{}+{count}", address.as_str())?);
        note(&mut self.draft.done, Rule::Dummy)?;
        if self.draft.label.is_empty() {
            return self.draft.into_comment(alloc, line);
        }
        self.draft.word = String::from_str(alloc, ".set")?;
        self.draft.operands = address;
        self.draft.into_line(alloc)
    }

    /// `BSS`: words are reserved.
    fn as_reserved(
        mut self,
        alloc: Global,
        around: &Around<'_>,
        progress: &mut Progress,
        line: &str,
    ) -> Result<Change, NoMemory>
        ensures { OnOk result (progress.new.blocks ≡ progress.old.blocks) }
    {
        let count = self.expressions(alloc, around, progress.blocks)?;
        match progress.dummy.take() {
            Some(address) => {
                self.as_dummy_words(alloc, count.as_str().trim(), progress, address, line)
            }
            None => {
                note(&mut self.draft.done, Rule::Reserve)?;
                self.draft.word = String::from_str(alloc, ".space")?;
                self.draft.operands = format!(in alloc;
                    "{}{}{}",
                    "(",
                    count.as_str().trim(),
                    ")*16"
                )?;
                self.draft.into_line(alloc)
            }
        }
    }

    /// `BES`, `.bes`: bits are reserved, and the label is the last word.
    fn as_block_end(
        mut self,
        alloc: Global,
        around: &Around<'_>,
        progress: &Progress,
    ) -> Result<Change, NoMemory> {
        let count = self.expressions(alloc, around, progress.blocks)?;
        note(&mut self.draft.done, Rule::BlockEnd)?;
        if self.work == Work::ReserveEnd {
            note(&mut self.draft.left, Rule::BlockEnd)?;
            self.draft.operands = format!(in alloc; "{}{}{}", "(", count.as_str().trim(), ")*16")?;
        } else {
            self.draft.operands = count;
        }
        let label = String::from_str(alloc, self.draft.label.as_str())?;
        self.draft.label = String::new(alloc);
        self.draft.word = String::from_str(alloc, ".space")?;
        let mut lines = Vec::new(alloc);
        lines.push(self.draft.line(alloc)?)?;
        if !label.is_empty() {
            lines.push(line_of(alloc, label.as_str(), ".set", "$-1")?)?;
        }
        Ok(self.draft.into_lines(lines))
    }

    /// `.usect`, `.bss`: without the operand that follows so many commas.
    fn without_flag(
        mut self,
        alloc: Global,
        around: &Around<'_>,
        progress: &Progress,
        commas: usize,
    ) -> Result<Change, NoMemory> {
        if let Some(end) = before_comma(self.operands.as_slice(), commas) {
            self.operands.truncate(end);
            note(&mut self.draft.done, Rule::Flag)?;
            note(&mut self.draft.left, Rule::Flag)?;
        }
        self.as_expressions(alloc, around, progress)
    }

    /// Notes that constants of 32 bits became two words: left where their order is not known.
    fn note_long(&mut self, around: &Around<'_>) -> Result<(), NoMemory> {
        note(&mut self.draft.done, Rule::Long)?;
        if around.long_order.is_none() {
            note(&mut self.draft.left, Rule::Long)?;
        }
        Ok(())
    }

    /// `.long`: two words for each value.
    fn as_longs(
        mut self,
        alloc: Global,
        around: &Around<'_>,
        progress: &Progress,
    ) -> Result<Change, NoMemory> {
        let values = self.expressions(alloc, around, progress.blocks)?;
        let mut words = String::new(alloc);
        for value in values.as_str().split(',') {
            let value = value.trim();
            if !words.is_empty() {
                words.push(',')?;
            }
            words.push_str(two_words(alloc, around.long_order, value)?.as_str())?;
        }
        self.note_long(around)?;
        self.draft.word = String::from_str(alloc, ".word")?;
        self.draft.operands = words;
        self.draft.into_line(alloc)
    }

    /// `.float`: two words for each value, as an IEEE number of single precision; a value that is no decimal number is
    /// left.
    fn as_floats(
        mut self,
        alloc: Global,
        around: &Around<'_>,
        progress: &Progress,
    ) -> Result<Change, NoMemory> {
        let values = text_of(alloc, self.operands.as_slice())?;
        match float_words(alloc, around.long_order, values.as_str())? {
            Some(words) => {
                self.note_long(around)?;
                self.draft.word = String::from_str(alloc, ".word")?;
                self.draft.operands = words;
                self.draft
                    .add_comment(alloc, ".float", values.as_str().trim())?;
                self.draft.into_line(alloc)
            }
            None => self.as_no_form(alloc, around, progress),
        }
    }

    /// A directive that has no form: its operands alone are moved.
    fn as_no_form(
        mut self,
        alloc: Global,
        around: &Around<'_>,
        progress: &Progress,
    ) -> Result<Change, NoMemory> {
        note(&mut self.draft.left, Rule::NoForm)?;
        self.as_expressions(alloc, around, progress)
    }

    /// What becomes of the line.
    pub(crate) fn change(
        self,
        alloc: Global,
        around: &Around<'_>,
        progress: &mut Progress,
        line: &str,
    ) -> Result<Change, NoMemory>
        ensures { OnOk result (progress.new.blocks ≡ progress.old.blocks) }
    {
        match self.work {
            Work::Operands | Work::Nothing | Work::Alone => self.as_expressions(
                alloc, around, progress,
            ),
            Work::Title | Work::FileName => self.as_string(alloc, false),
            Work::Library => self.as_string(alloc, true),
            Work::Strings => self.as_strings(alloc),
            Work::Bytes => self.as_bytes(alloc, around, progress),
            Work::Words => self.as_words(alloc, around, progress),
            Work::Equate => self.as_equate(alloc, around, progress, line),
            Work::Origin | Work::NamedOrigin => self.as_address(alloc, around, progress),
            Work::Program => self.as_section(alloc, ".text"),
            Work::Data => self.as_section(alloc, ".data"),
            Work::SegmentEnd => self.as_comment(alloc, Rule::Segment, line),
            Work::Dummy => self.as_dummy(alloc, around, progress, line),
            Work::DummyEnd => self.as_comment(alloc, Rule::Dummy, line),
            Work::Reserve => self.as_reserved(alloc, around, progress, line),
            Work::ReserveEnd | Work::BlockEnd => self.as_block_end(alloc, around, progress),
            Work::Usect => self.without_flag(alloc, around, progress, 1),
            Work::Bss => self.without_flag(alloc, around, progress, 2),
            Work::Long => self.as_longs(alloc, around, progress),
            Work::Float => self.as_floats(alloc, around, progress),
            Work::NewBlock => self.as_comment(alloc, Rule::NewBlock, line),
            Work::NoEffect => self.as_comment(alloc, Rule::NoEffect, line),
            Work::NoForm => self.as_no_form(alloc, around, progress),
        }
    }
}
