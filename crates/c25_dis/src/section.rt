//! The text of a section: its heading, and the lines of each of its places.

ghost use Rattle.std.specs.Prelude.{◌≡◌, ◌+◌, ◌^◌, ◌<◌, ◌++◌, ℕ, List, Some, OnOk, IfOk, filter, string_bytes, slice_get};
ghost use Rattle.std.specs.List.{flat_map};
ghost use Rattle.c25_dis.specs.Sections.{body_text, heading, is_long, is_second, label_line, labels_at, mark_at, note_at, notes_by, place_text, second_by, stands_at, AreTexts, IsLineAt, IsPlace, IsReadBy, IsSection};
ghost use Rattle.c25_dis.specs.Index.{IsIndexOf};
ghost use Rattle.c25_dis.specs.View.{AreIndexed, label_by, symbol_place};
ghost use Rattle.c25_meaning_objects.specs.Module.{body_size, body_words, words_at};
ghost use Rattle.c25_module.specs.View.{body_data, contents, section_data, symbols_data};

use crate::index::{IndexEntry, at, first_at, index_of, item_at};
use crate::instruction_reader::instruction;
use crate::line::{Code, push_address, push_line};
use crate::notes::push_filled;
use c25_meaning_common::no_memory::NoMemory;
use c25_meaning_instructions::insn::Insn;
use c25_meaning_objects::object::ModuleMark;
use c25_module::{Body, Parts, Section, Symbol};
use c25_texts::appending::{push_text, push_texts};
use std::alloc::Global;

/// A section of a module, by its number, with indexes of its symbols, marks and relocations.
#[derive(Drop)]
pub(crate) struct Places<'m> {
    parts: &'m Parts,
    section: usize,
    symbols: Vec<IndexEntry>,
    marks: Vec<IndexEntry>,
    relocations: Vec<IndexEntry>,
}

/// The section of a number with its indexes.
fn places_of(alloc: Global, parts: &Parts, section: usize) -> Result<Places<'_>, NoMemory>
    ensures { IfOk result (λ p. AreIndexed p × (p.parts.now ≡ parts.now) × (p.section ≡ section)) }
{
    let symbols = index_of(alloc, &parts.symbols, section)?;
    let marks = index_of(alloc, &parts.marks, section)?;
    let relocations = index_of(alloc, &parts.relocations, section)?;
    Ok(Places {
        parts,
        section,
        symbols,
        marks,
        relocations,
    })
}

/// Appends a place in four hexadecimal digits; the place after the last of 65,536 words in five.
fn push_place_text(text: &mut String, place: usize) -> Result<(), NoMemory>
    ensures { OnOk result (string_bytes text.new ≡ string_bytes text.old ++ place_text place) }
{
    if place == 65_536 {
        push_text(text, "10000")
    } else {
        push_address(text, place)
    }
}

/// Appends the line of a symbol: its place, its name and a colon.
fn push_label(text: &mut String, place: usize, name: &str) -> Result<(), NoMemory>
    ensures { OnOk result (string_bytes text.new ≡ string_bytes text.old ++ label_line place name.now) }
{
    push_place_text(text, place)?;
    push_texts(text, &[" ", name, ":\n"])
}

/// Appends the line of the symbol of a number, if there is one.
fn push_numbered(
    text: &mut String,
    symbols: &[Symbol],
    place: usize,
    item: &IndexEntry,
) -> Result<(), NoMemory>
    ensures { OnOk result (string_bytes text.new ≡ string_bytes text.old ++ label_by symbols.now place item.now) }
{
    match symbols.get(item.number) {
        None => Ok(()),
        Some(symbol) => push_label(text, place, &symbol.name),
    }
}

/// Appends the lines of the symbols that these entries of the index name.
fn push_labels(
    text: &mut String,
    symbols: &[Symbol],
    place: usize,
    found: &[IndexEntry],
) -> Result<(), NoMemory>
    ensures { OnOk result (string_bytes text.new ≡ string_bytes text.old ++ flat_map (label_by symbols.now place) found.now) }
{
    for item in found {
        push_numbered(text, symbols, place, item)?;
    }
    Ok(())
}

/// Appends the lines of the symbols at a place of a section, by the index of that section.
fn push_labels_at(
    text: &mut String,
    symbols: &[Symbol],
    index: &[IndexEntry],
    section: usize,
    place: usize,
) -> Result<(), NoMemory>
    requires { IsIndexOf (λ y. symbol_place y section) symbols.now index.now }
    ensures { OnOk result (string_bytes text.new ≡ string_bytes text.old
        ++ flat_map (λ y. label_line place y.name) (filter (stands_at section place) (symbols_data symbols.now))) }
{
    push_labels(text, symbols, place, at(index, place))
}

/// Whether a mark is that of an instruction of two words.
fn is_long(mark: Option<ModuleMark>) -> bool
    ensures { result ≡ is_long mark }
{
    match mark {
        None => false,
        Some(mark) => mark.size == 2,
    }
}

/// The word after a place, where the line there has two words.
fn second_at(words: &[u16], place: usize, is_long: bool) -> Option<u16>
    requires { place < 2 ^ 63 }
    ensures { result ≡ second_by is_long words.now place }
{
    if is_long {
        item_at(words, place + 1)
    } else {
        None
    }
}

/// The instruction of words, where a mark says that one starts there.
fn marked_instruction(mark: Option<ModuleMark>, first: u16, second: Option<u16>) -> Option<Insn>
    ensures { IsReadBy mark first second result }
{
    match mark {
        None => None,
        Some(_) => instruction(first, second),
    }
}

impl Places<'_> {
    /// The mark at a place.
    fn mark_at(&self, place: usize) -> Option<ModuleMark>
        requires { AreIndexed self.now }
        ensures { result ≡ mark_at (contents self.now.parts.now) self.now.section place }
    {
        first_at(&self.parts.marks, &self.marks, self.section, place)
    }

    /// Whether the word at a place is the second of an instruction.
    fn is_second(&self, place: usize) -> bool
        requires { AreIndexed self.now }
        ensures { result ≡ is_second (contents self.now.parts.now) self.now.section place }
    {
        if place == 0 {
            false
        } else {
            is_long(self.mark_at(place - 1))
        }
    }

    /// Appends a note of what the relocation at a place fills in, if there is one.
    fn push_note(&self, text: &mut String, place: usize) -> Result<(), NoMemory>
        requires { AreIndexed self.now }
        ensures { OnOk result (string_bytes text.new ≡ string_bytes text.old ++ note_at (contents self.now.parts.now) self.now.section place) }
    {
        match first_at(
            &self.parts.relocations,
            &self.relocations,
            self.section,
            place,
        ) {
            None => Ok(()),
            Some(relocation) => push_filled(text, self.parts, &relocation),
        }
    }

    /// Appends notes of what relocations fill into the words of a line.
    fn push_notes(
        &self,
        text: &mut String,
        place: usize,
        second: Option<u16>,
    ) -> Result<(), NoMemory>
        requires indexed { AreIndexed self.now }
        requires few { place < 2 ^ 63 }
        ensures { OnOk result (string_bytes text.new ≡ string_bytes text.old ++ notes_by second (contents self.now.parts.now) self.now.section place) }
    {
        self.push_note(text, place)?;
        match second {
            None => Ok(()),
            Some(_) => self.push_note(text, place + 1),
        }
    }

    /// Appends the line of the word at a place.
    fn push_word_line(
        &self,
        alloc: Global,
        text: &mut String,
        words: &[u16],
        place: usize,
        first: u16,
    ) -> Result<(), NoMemory>
        requires indexed { AreIndexed self.now }
        requires words { words.now ≡ words_at (contents self.now.parts.now).sections self.now.section }
        requires few { place < 2 ^ 63 }
        ensures { OnOk result ((line : List ℕ) × IsLineAt (contents self.now.parts.now) self.now.section place first line
            × (string_bytes text.new ≡ string_bytes text.old ++ line)) }
    {
        let mark = self.mark_at(place);
        let second = second_at(words, place, is_long(mark));
        let insn = marked_instruction(mark, first, second);
        let code = Code {
            first,
            second,
            insn,
        };
        push_line(alloc, text, place, &code)?;
        self.push_notes(text, place, second)?;
        push_text(text, "\n")
    }

    /// Appends the lines of the symbols at a place.
    fn push_own_labels(&self, text: &mut String, place: usize) -> Result<(), NoMemory>
        requires { AreIndexed self.now }
        ensures { OnOk result (string_bytes text.new ≡ string_bytes text.old ++ labels_at (contents self.now.parts.now) self.now.section place) }
    {
        push_labels_at(
            text,
            &self.parts.symbols,
            &self.symbols,
            self.section,
            place,
        )
    }

    /// Appends the lines of a place: its labels, and that of its word.
    fn push_place(
        &self,
        alloc: Global,
        text: &mut String,
        words: &[u16],
        place: usize,
    ) -> Result<(), NoMemory>
        requires indexed { AreIndexed self.now }
        requires words { words.now ≡ words_at (contents self.now.parts.now).sections self.now.section }
        requires few { place < 2 ^ 63 }
        ensures { OnOk result ((own : List ℕ) × IsPlace (contents self.now.parts.now) self.now.section place own
            × (string_bytes text.new ≡ string_bytes text.old ++ own)) }
    {
        self.push_own_labels(text, place)?;
        match item_at(words, place) {
            None => Ok(()),
            Some(first) => {
                if self.is_second(place) {
                    Ok(())
                } else {
                    self.push_word_line(alloc, text, words, place, first)
                }
            }
        }
    }

    /// Appends the lines of all places of a section, and the labels after its last word.
    fn push_places(
        &self,
        alloc: Global,
        text: &mut String,
        words: &[u16],
        count: usize,
    ) -> Result<(), NoMemory>
        requires indexed { AreIndexed self.now }
        requires words { words.now ≡ words_at (contents self.now.parts.now).sections self.now.section }
        requires few { count < 2 ^ 63 }
        ensures { OnOk result ((places : List ℕ) × AreTexts (IsPlace (contents self.now.parts.now) self.now.section) (count + 1) places
            × (string_bytes text.new ≡ string_bytes text.old ++ places)) }
    {
        for place in 0..count + 1 {
            self.push_place(alloc, text, words, place)?;
        }
        Ok(())
    }
}

/// Appends the body in words: `initialised`, or how many words are reserved.
fn push_body_text(text: &mut String, body: &Body) -> Result<(), NoMemory>
    ensures { OnOk result (string_bytes text.new ≡ string_bytes text.old ++ body_text (body_data body.now)) }
{
    match body {
        Body::Initialised(_) => push_text(text, "initialised"),
        Body::Uninitialised(size) => Ok(write!(text, "reserves {size}")?),
    }
}

/// Appends the heading of a section.
fn push_heading(text: &mut String, section: &Section) -> Result<(), NoMemory>
    ensures { OnOk result (string_bytes text.new ≡ string_bytes text.old ++ heading (section_data section.now)) }
{
    push_texts(text, &["section ", &section.name, " "])?;
    push_body_text(text, &section.body)?;
    push_text(text, "\n")
}

/// Appends the lines of all places of a section's body.
fn push_body(
    alloc: Global,
    text: &mut String,
    places: &Places<'_>,
    body: &Body,
) -> Result<(), NoMemory>
    requires indexed { AreIndexed places.now }
    requires words { body_words (body_data body.now) ≡ words_at (contents places.now.parts.now).sections places.now.section }
    ensures { OnOk result ((own : List ℕ) × AreTexts (IsPlace (contents places.now.parts.now) places.now.section) (body_size (body_data body.now) + 1) own
        × (string_bytes text.new ≡ string_bytes text.old ++ own)) }
{
    match body {
        Body::Initialised(words) => places.push_places(alloc, text, words, words.len()),
        Body::Uninitialised(size) => places.push_places(alloc, text, &[], *size as usize),
    }
}

/// Appends the text of the section of a number.
pub(crate) fn push_section(
    alloc: Global,
    text: &mut String,
    parts: &Parts,
    number: usize,
    section: &Section,
) -> Result<(), NoMemory>
    requires { slice_get (contents parts.now).sections number ≡ Some (section_data section.now) }
    ensures { OnOk result ((own : List ℕ) × IsSection (contents parts.now) number (section_data section.now) own
        × (string_bytes text.new ≡ string_bytes text.old ++ own)) }
{
    push_heading(text, section)?;
    let places = places_of(alloc, parts, number)?;
    push_body(alloc, text, &places, &section.body)
}
