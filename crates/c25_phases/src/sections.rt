//! All sections of the module that is being made.

ghost use Rattle.std.specs.Prelude.{◌≡◌, ◌≤◌, ◌<◌, ◌+◌, ◌∷◌, ◌++◌, [], length, OnOk, IfOk, IfSome, map};
ghost use Rattle.std.specs.List.{position, find, flat_map, fold};
ghost use Rattle.std.specs.Option.{option_copied};
ghost use Rattle.c25_meaning_assembly.specs.Emission.{extended, lines_in, section_of, with_line};
ghost use Rattle.c25_meaning_assembly.specs.Sections.{changed, is_called, longer, same_kind, size_at, with_block, with_mark};
ghost use Rattle.c25_module.specs.View.{sections_data};

use crate::lines::Lines;
use crate::section::Section;
use c25_meaning_common::no_memory::NoMemory;
use c25_meaning_objects::object::{Block, ModuleMark, Relocation};
use std::alloc::Global;
use std::marker::Model;

/// The sections of a module, in the order of their first use.
#[derive(Drop)]
pub(crate) struct Sections<'a> {
    alloc: Global,
    sections: Vec<Section<'a>>,
}

impl<'a> Model for Sections<'a> {
    ghost use Rattle.std.specs.Prelude.{List, length, ◌≤◌};
    ghost use Rattle.c25_meaning_assembly.specs.Sections.{Section};

    ghost Value = { List Section };

    ghost view = { λ s. s.sections.items };

    ghost invariant = { λ s. length s.sections.items ≤ 255 };
}

fn find<'s, 'a>(sections: &'s [Section<'a>], name: &str) -> Option<&'s Section<'a>>
    ensures { option_copied result ≡ find (is_called name.now) sections.now }
{
    sections.iter().find(|section| section.is_called(name))
}

impl<'a> Sections<'a> {
    pub(crate) fn new(alloc: Global) -> Self
        ensures { result ≡ [] }
    {
        Sections {
            alloc,
            sections: Vec::new(alloc),
        }
    }

    pub(crate) fn len(&self) -> usize
        ensures value { result ≡ length self.now }
        ensures bound { result ≤ 255 }
    {
        self.sections.len()
    }

    /// Adds a section.
    pub(crate) fn push(&mut self, section: Section<'a>) -> Result<(), NoMemory>
        requires { length self.old < 255 }
        ensures { OnOk result (self.new ≡ self.old ++ section.entry ∷ []) }
    {
        self.sections.push(section).map_err(NoMemory::from)
    }

    /// The number of the section of a name, if there is one.
    pub(crate) fn position(&self, name: &str) -> Option<usize>
        ensures value { result ≡ position (is_called name.now) self.now }
        ensures bound { IfSome result (λ i. i < 255) }
    {
        self.sections
            .iter()
            .position(|section| section.is_called(name))
    }

    /// Whether the section of a name is of this kind; it may be of either where there is none yet.
    pub(crate) fn has_kind(&self, name: &str, initialised: bool) -> bool
        ensures { result ≡ same_kind initialised (find (is_called name.now) self.now) }
    {
        match find(self.sections.as_slice(), name) {
            Some(section) => section.is_initialised() == initialised,
            None => true,
        }
    }

    /// The size in words of the section that has a number; 0 where there is no such section.
    pub(crate) fn size_at(&self, number: u16) -> u32
        ensures value { result ≡ size_at self.now number }
        ensures bound { result ≤ 65536 }
    {
        match self.sections.get(number as usize) {
            Some(section) => section.size(),
            None => 0,
        }
    }

    /// Lengthens the section that has a number.
    pub(crate) fn lengthen(&mut self, number: u16, words: u32)
        requires { size_at self.old number + words ≤ 65536 }
        ensures { self.new ≡ changed (longer words) self.old number }
    {
        if let Some(section) = self.sections.get_mut(number as usize) {
            section.lengthen(words);
        }
    }

    /// Adds a mark and its line, which is given by the file's name and the line's number, to the mark's
    /// section.
    pub(crate) fn mark(
        &mut self,
        mark: ModuleMark,
        file: &'a str,
        line: u32,
    ) -> Result<(), NoMemory>
        ensures { OnOk result (self.new ≡ changed (with_mark (record { file = file.entry.now; line = line }) mark) self.old mark.section) }
    {
        match self.sections.get_mut(mark.section as usize) {
            Some(section) => section.mark(mark, file, line),
            None => Ok(()),
        }
    }

    /// Adds a block to the section that has a number.
    pub(crate) fn block(&mut self, number: u16, block: Block) -> Result<(), NoMemory>
        ensures { OnOk result (self.new ≡ changed (with_block block) self.old number) }
    {
        match self.sections.get_mut(number as usize) {
            Some(section) => section.block(block),
            None => Ok(()),
        }
    }

    /// Appends words and relocations to those of the section that has a number.
    pub(crate) fn extend(
        &mut self,
        number: u16,
        words: &[u16],
        relocations: &[Relocation],
    ) -> Result<(), NoMemory>
        ensures { OnOk result (self.new ≡ changed (extended words.now relocations.now) self.old number) }
    {
        match self.sections.get_mut(number as usize) {
            Some(section) => section.extend(words, relocations),
            None => Ok(()),
        }
    }

    /// The marks of all sections, section by section.
    pub(crate) fn marks(&self) -> Result<Vec<ModuleMark>, NoMemory>
        ensures { IfOk result (λ v. v.items ≡ flat_map (λ s. s.marks) self.now) }
    {
        let mut marks = Vec::new(self.alloc);
        for section in &self.sections {
            marks.extend_from_slice(section.marks())?;
        }
        Ok(marks)
    }

    /// The files and lines of the marks of all sections.
    pub(crate) fn lines(&self) -> Result<Lines<'a>, NoMemory>
        requires { length (lines_in self.now).files ≤ 65535 }
        ensures { IfOk result (λ l. l ≡ lines_in self.now) }
    {
        let mut lines = Lines::new(self.alloc);
        match self.put_lines(&mut lines) {
            Ok(()) => Ok(lines),
            Err(error) => Err(error),
        }
    }

    /// Adds the lines of the marks of all sections.
    fn put_lines(&self, lines: &mut Lines<'a>) -> Result<(), NoMemory>
        requires { length (fold with_line lines.old (flat_map (λ s. s.origins) self.now)).files ≤ 65535 }
        ensures { OnOk result (lines.new ≡ fold with_line lines.old (flat_map (λ s. s.origins) self.now)) }
    {
        for section in &self.sections {
            lines.add_all(section.lines())?;
        }
        Ok(())
    }

    /// The blocks of all sections, section by section.
    pub(crate) fn blocks(&self) -> Result<Vec<Block>, NoMemory>
        ensures { IfOk result (λ v. v.items ≡ flat_map (λ s. s.blocks) self.now) }
    {
        let mut blocks = Vec::new(self.alloc);
        for section in &self.sections {
            blocks.extend_from_slice(section.blocks())?;
        }
        Ok(blocks)
    }

    /// The relocations of all sections, section by section.
    pub(crate) fn relocations(&self) -> Result<Vec<Relocation>, NoMemory>
        ensures { IfOk result (λ v. v.items ≡ flat_map (λ s. s.relocations) self.now) }
    {
        let mut relocations = Vec::new(self.alloc);
        for section in &self.sections {
            relocations.extend_from_slice(section.relocations())?;
        }
        Ok(relocations)
    }

    /// The sections as the module has them.
    pub(crate) fn into_parts(self) -> Result<Vec<c25_module::Section>, NoMemory>
        ensures { IfOk result (λ v. sections_data v.items ≡ map section_of self.entry) }
    {
        let Sections { alloc, sections } = self;
        let mut parts = Vec::new(alloc);
        for section in sections {
            parts.push(section.into_part())?;
        }
        Ok(parts)
    }
}
