//! One section of the module that is being made.

ghost use Rattle.std.specs.Prelude.{◌≡◌, ◌≤◌, ◌+◌, OnOk, IfOk};
ghost use Rattle.c25_meaning_assembly.specs.Emission.{extended, section_of};
ghost use Rattle.c25_meaning_assembly.specs.Sections.{empty_section, is_called, longer, with_block, with_mark};
ghost use Rattle.c25_phases.specs.SourceLines.{origins_of};
ghost use Rattle.c25_module.specs.View.{section_data};

use crate::source_lines::SourceLines;
use c25_meaning_common::no_memory::NoMemory;
use c25_meaning_objects::object::{Block, ModuleMark, Relocation};
use c25_module::Body;
use std::alloc::Global;
use std::marker::Model;

/// A section: the first phase gives it a size, marks with their lines, and blocks, the second one words and
/// relocations.
#[derive(Drop)]
pub(crate) struct Section<'a> {
    name: String,
    initialised: bool,
    size: u32,
    marks: Vec<ModuleMark>,
    lines: SourceLines<'a>,
    blocks: Vec<Block>,
    words: Vec<u16>,
    relocations: Vec<Relocation>,
}

impl<'a> Model for Section<'a> {
    ghost use Rattle.std.specs.Prelude.{◌≤◌};
    ghost use Rattle.std.specs.String.{string_bytes};
    ghost use Rattle.c25_meaning_assembly.specs.Sections.{Section};
    ghost use Rattle.c25_phases.specs.SourceLines.{origins_of};

    ghost Value = { Section };

    ghost view = { λ s. record { name = string_bytes s.name; initialised = s.initialised; size = s.size; marks = s.marks.items; origins = origins_of s.lines; blocks = s.blocks.items; words = s.words.items; relocations = s.relocations.items } };

    ghost invariant = { λ s. s.size ≤ 65536 };
}

impl<'a> Section<'a> {
    /// An empty section.
    pub(crate) fn new(alloc: Global, name: &str, initialised: bool) -> Result<Self, NoMemory>
        ensures { IfOk result (λ s. s ≡ empty_section name.now initialised) }
    {
        let name = String::from_str(alloc, name)?;
        Ok(Section {
            name,
            initialised,
            size: 0,
            marks: Vec::new(alloc),
            lines: SourceLines::new(alloc),
            blocks: Vec::new(alloc),
            words: Vec::new(alloc),
            relocations: Vec::new(alloc),
        })
    }

    pub(crate) fn is_called(&self, name: &str) -> bool
        ensures { result ≡ is_called name.now self.now }
    {
        name.as_bytes() == self.name.as_bytes()
    }

    pub(crate) fn is_initialised(&self) -> bool
        ensures { result ≡ self.now.initialised }
    {
        self.initialised
    }

    pub(crate) fn size(&self) -> u32
        ensures value { result ≡ self.now.size }
        ensures bound { result ≤ 65536 }
    {
        self.size
    }

    pub(crate) fn marks(&self) -> &[ModuleMark]
        ensures { result.now ≡ self.now.marks }
    {
        self.marks.as_slice()
    }

    /// The line of each mark.
    pub(crate) fn lines(&self) -> &SourceLines<'a>
        ensures { origins_of result.now ≡ self.now.origins }
    {
        &self.lines
    }

    pub(crate) fn blocks(&self) -> &[Block]
        ensures { result.now ≡ self.now.blocks }
    {
        self.blocks.as_slice()
    }

    pub(crate) fn relocations(&self) -> &[Relocation]
        ensures { result.now ≡ self.now.relocations }
    {
        self.relocations.as_slice()
    }

    /// Lengthens the section by a number of words.
    pub(crate) fn lengthen(&mut self, words: u32)
        requires { self.old.size + words ≤ 65536 }
        ensures { self.new ≡ longer words self.old }
    {
        self.size += words;
    }

    /// Adds a mark and its line, which is given by the file's name and the line's number.
    pub(crate) fn mark(
        &mut self,
        mark: ModuleMark,
        file: &'a str,
        line: u32,
    ) -> Result<(), NoMemory>
        ensures { OnOk result (self.new ≡ with_mark (record { file = file.entry.now; line = line }) mark self.old) }
    {
        self.marks.push(mark)?;
        self.lines.push(file, line)
    }

    /// Adds a block.
    pub(crate) fn block(&mut self, block: Block) -> Result<(), NoMemory>
        ensures { OnOk result (self.new ≡ with_block block self.old) }
    {
        self.blocks.push(block).map_err(NoMemory::from)
    }

    /// Appends words and relocations.
    pub(crate) fn extend(
        &mut self,
        words: &[u16],
        relocations: &[Relocation],
    ) -> Result<(), NoMemory>
        ensures { OnOk result (self.new ≡ extended words.now relocations.now self.old) }
    {
        self.words.extend_from_slice(words)?;
        self.relocations
            .extend_from_slice(relocations)
            .map_err(NoMemory::from)
    }

    /// The section as the module has it.
    pub(crate) fn into_part(self) -> c25_module::Section
        ensures { section_data result ≡ section_of self.entry }
    {
        let Section {
            name,
            initialised,
            size,
            words,
            ..
        } = self;
        let body = if initialised {
            Body::Initialised(words)
        } else {
            Body::Uninitialised(size)
        };
        c25_module::Section { name, body }
    }
}
