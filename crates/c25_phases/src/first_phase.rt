//! The first phase: names, counts and sections. `Progress`, the type of these methods, is in `progress.rt`;
//! its other methods are in `acts.rt`.

ghost use Rattle.std.specs.Prelude.{◌≡◌, ◌≤◌, ◌<◌, ◌+◌, ◌∷◌, ◌++◌, [], Ok, OnOk, IfOk, IfErr, true, false};
ghost use Rattle.std.specs.Option.{option_map};
ghost use Rattle.c25_meaning_common.specs.Results.{Meets};
ghost use Rattle.c25_meaning_assembly.specs.AllFaults.{is_last_kind};
ghost use Rattle.c25_meaning_assembly.specs.Sections as meaning;
ghost use Rattle.c25_meaning_language.specs.Statement.{valued};
ghost use Rattle.c25_expr.specs.View.{tree_of};
ghost use Rattle.c25_phases.specs.Sizes.{IsBlockSize, content_size};
ghost use Rattle.c25_phases.specs.Origins.{origin_of};
ghost use Rattle.c25_phases.specs.Refused.{IsFull, IsKept};
ghost use Rattle.c25_phases.specs.Steps.{marked, waited};
ghost use Rattle.c25_phases.specs.View.{content_of, item_of, progress_of, symbols_of};

use crate::counts::{count_of, flag_of, is_file_name, is_line_number};
use crate::item::{Content, PendingItem};
use crate::names::DistinctNames;
use crate::operand_values::valued;
use crate::progress::Progress;
use crate::second_phase::SecondPhase;
use crate::section::Section;
use crate::sections::Sections;
use c25_expr::symbols::{Defined, Symbols};
use c25_expr::tree::Expr;
use c25_meaning_common::failure::Failure;
use c25_meaning_common::no_memory::NoMemory;
use c25_meaning_common::placed::FileLine;
use c25_meaning_language::statement::FaultKind;
use c25_meaning_language::value::{Base, Value};
use c25_meaning_objects::object::{Block, ModuleMark};
use std::alloc::Global;

/// The most words of a section.
const MOST_WORDS: u32 = 65_536;

/// The most sections of a module.
const MOST_SECTIONS: usize = 255;

/// The most names that can be defined or declared.
const MOST_NAMES: usize = 65_535;

/// The most files that can hold instructions.
const MOST_FILES: usize = 65_535;

/// The place at an offset of a section, in words.
pub(crate) fn place(section: u16, offset: u32) -> Value
    requires { offset ≤ 65536 }
    ensures { result ≡ meaning.place section offset }
{
    Value {
        base: Base::Section(section),
        offset: offset as i32,
    }
}

impl<'a> Progress<'a> {
    /// The state before the first line: an empty section `.text`. `NoMemory` where memory runs out.
    pub fn new(alloc: Global) -> Result<Progress<'a>, NoMemory>
        ensures { IfOk result (λ p. progress_of p ≡ meaning.start) }
    {
        let mut sections = Sections::new(alloc);
        sections.push(Section::new(alloc, ".text", true)?)?;
        Ok(Progress {
            alloc,
            sections,
            current: 0,
            symbols: Symbols::new(alloc),
            declared: DistinctNames::new(alloc),
            missing: 0,
            exported: DistinctNames::new(alloc),
            registers: false,
            items: Vec::new(alloc),
            files: DistinctNames::new(alloc),
            recent: 0,
        })
    }

    /// How many words a section has so far, or 0 where there is no section of this number.
    pub fn size_at(&self, section: u16) -> u32
        ensures value { result ≡ meaning.size_at (progress_of self.now).sections section }
        ensures bound { result ≤ 65536 }
    {
        self.sections.size_at(section)
    }

    /// The place after the last word of a section.
    pub(crate) fn place_in(&self, section: u16) -> Value
        ensures { result ≡ meaning.place_in (progress_of self.now).sections section }
    {
        place(section, self.sections.size_at(section))
    }

    /// The place where the words of the next line are loaded.
    pub(crate) fn loaded_here(&self) -> Value
        ensures { result ≡ meaning.loaded_here (progress_of self.now) }
    {
        Value {
            base: Base::Loaded(self.current),
            offset: self.sections.size_at(self.current) as i32,
        }
    }

    /// The place where the next line begins.
    pub(crate) fn here(&self) -> Value
        ensures { result ≡ meaning.here (progress_of self.now) }
    {
        self.place_in(self.current)
    }

    /// Makes `$` stand for the place where the next line begins.
    pub fn move_here(&mut self)
        ensures here { symbols_of self.new ≡ meaning.table (progress_of self.old) }
        ensures same { progress_of self.new ≡ progress_of self.old }
    {
        let here = self.here();
        self.symbols.set_here(here);
    }

    /// The values of names so far, and of `$`.
    pub fn symbols(&self) -> &Symbols
        ensures { result.now ≡ symbols_of self.now }
    {
        &self.symbols
    }

    /// The values of names so far, and of `$`, alone.
    pub fn into_symbols(self) -> Symbols
        ensures { result ≡ symbols_of self.entry }
    {
        SecondPhase::of(self).into_symbols()
    }

    /// Defines a name, or reports that it is defined already (26).
    #[tactic(auto, using(crate::proofs::Declared::define_counts), unfolding(c25_meaning_assembly::specs::Sections::define))]
    pub(crate) fn define(&mut self, name: &str, value: Value) -> Result<(), Failure<FaultKind>>
        ensures told { Meets (λ _. progress_of self.new) (meaning.define name.now value (progress_of self.old)) result }
        ensures kept { IsKept (progress_of self.old) result (progress_of self.new) }
        ensures names { OnOk result ((progress_of self.new).names ≡ (progress_of self.old).names ++ (name.now, value) ∷ []) }
        ensures anew { meaning.stands (progress_of self.old).names name.now ≡ false → IsFull result }
    {
        if self.symbols.get(name).is_some() {
            return Err(Failure::Fault(FaultKind::Defined));
        }
        let is_declared = self.declared.has(name);
        match self.symbols.define(name, value) {
            Ok(()) => {
                if is_declared {
                    self.missing -= 1;
                }
                Ok(())
            }
            Err(Failure::NoMemory(error)) => Err(Failure::NoMemory(error)),
            Err(Failure::Fault(Defined)) => Err(Failure::Fault(FaultKind::Defined)),
        }
    }

    /// The value of an expression whose names have to be known by now, or its fault (22 to 25).
    pub(crate) fn valued(&mut self, expr: &Expr) -> Result<Value, FaultKind>
        ensures value { result ≡ valued (meaning.table (progress_of self.old)) (tree_of expr.now) }
        ensures same { progress_of self.new ≡ progress_of self.old }
    {
        self.move_here();
        valued(&self.symbols, expr)
    }

    /// The count that an expression stands for, whose names have to be known by now; else 22 to 25.
    #[tactic(auto, unfolding(c25_meaning_assembly::specs::Sections::count_in))]
    pub(crate) fn count_in(&mut self, expr: &Expr) -> Result<u32, FaultKind>
        ensures value { result ≡ meaning.count_in (meaning.table (progress_of self.old)) (tree_of expr.now) }
        ensures same { progress_of self.new ≡ progress_of self.old }
    {
        match self.valued(expr) {
            Ok(value) => count_of(value),
            Err(fault) => Err(fault),
        }
    }

    /// Whether a flag is set, whose names have to be known by now, else 22 to 25; false where no flag is
    /// given.
    pub(crate) fn flag_in(&mut self, flag: &Option<Expr>) -> Result<bool, FaultKind>
        ensures value { result ≡ meaning.flag_in (meaning.table (progress_of self.old)) (option_map tree_of flag.now) }
        ensures same { progress_of self.new ≡ progress_of self.old }
    {
        match flag {
            Some(expr) => match self.valued(expr) {
                Ok(value) => flag_of(value),
                Err(fault) => Err(fault),
            },
            None => Ok(false),
        }
    }

    /// The number of the section of a name; a new section comes last, and is `TooLarge` (54) where there are
    /// 255 already.
    #[tactic(auto, unfolding(c25_meaning_assembly::specs::Sections::section_opened))]
    pub(crate) fn open(&mut self, name: &str, initialised: bool) -> Result<u16, Failure<FaultKind>>
        ensures told { Meets (λ i. (i, progress_of self.new)) (meaning.section_opened name.now initialised (progress_of self.old)) result }
        ensures full { IsFull result }
        ensures names { (progress_of self.new).names ≡ (progress_of self.old).names }
    {
        if let Some(number) = self.sections.position(name) {
            return Ok(number as u16);
        }
        let number = self.sections.len();
        if number >= MOST_SECTIONS {
            return Err(Failure::Fault(FaultKind::TooLarge));
        }
        let section = Section::new(self.alloc, name, initialised)?;
        self.sections.push(section)?;
        Ok(number as u16)
    }

    /// Lengthens a section by a number of words; `TooLarge` (54) where it would have more than 65,536.
    #[tactic(auto, unfolding(c25_meaning_assembly::specs::Sections::grow))]
    pub(crate) fn grow(&mut self, section: u16, words: usize) -> Result<(), Failure<FaultKind>>
        ensures told { Meets (λ _. progress_of self.new) (meaning.grow section words (progress_of self.old)) result }
        ensures full { IsFull result }
        ensures names { (progress_of self.new).names ≡ (progress_of self.old).names }
        ensures room { OnOk result (meaning.size_at (progress_of self.old).sections section + words ≤ 65536) }
    {
        let size = self.sections.size_at(section);
        if words > (MOST_WORDS - size) as usize {
            return Err(Failure::Fault(FaultKind::TooLarge));
        }
        self.sections.lengthen(section, words as u32);
        Ok(())
    }

    /// Lays content at the current place: lengthens the section, and keeps the content for the second phase.
    #[tactic(auto, unfolding(c25_meaning_assembly::specs::Sections::lay, c25_meaning_assembly::specs::Sections::grow))]
    pub(crate) fn lay(
        &mut self,
        origin: FileLine<&'a str>,
        content: Content,
        words: usize,
    ) -> Result<(), Failure<FaultKind>>
        requires { content_size content ≡ words }
        ensures told { Meets (λ _. progress_of self.new) (meaning.lay (origin_of origin.entry) (content_of content) words (progress_of self.old)) result }
        ensures full { IsFull result }
        ensures room { OnOk result (meaning.size_at (progress_of self.old).sections (progress_of self.old).current + words ≤ 65536) }
    {
        let section = self.current;
        let offset = self.sections.size_at(section);
        match self.grow(section, words) {
            Ok(()) => self.wait(PendingItem {
                origin,
                section,
                offset,
                content,
            }),
            Err(failure) => Err(failure),
        }
    }

    /// Keeps one item more for the second phase.
    pub(crate) fn wait(&mut self, item: PendingItem<'a>) -> Result<(), Failure<FaultKind>>
        ensures told { Meets (λ _. progress_of self.new) (waited (item_of item.entry) (progress_of self.old)) result }
        ensures full { IsFull result }
    {
        self.items.push(item)?;
        Ok(())
    }

    /// Counts a file among those that hold instructions; `TooLarge` (54) where there are 65,535 others, or
    /// its name has more than 65,535 bytes.
    fn use_file(&mut self, name: &str) -> Result<(), Failure<FaultKind>>
        ensures told { Meets (λ _. progress_of self.new) (meaning.use_file name.now (progress_of self.old)) result }
        ensures full { IsFull result }
    {
        if self.files.is_at(self.recent, name) {
            return Ok(());
        }
        if let Some(number) = self.files.position(name) {
            self.recent = number;
            return Ok(());
        }
        let number = self.files.len();
        if number >= MOST_FILES || !is_file_name(name) {
            return Err(Failure::Fault(FaultKind::TooLarge));
        }
        self.files.add(name)?;
        self.recent = number;
        Ok(())
    }

    /// The number of an instruction's line, whose file is counted among those that hold instructions;
    /// `TooLarge` (54) where the records of a module cannot hold the number or the file.
    #[tactic(auto, unfolding(c25_meaning_assembly::specs::Sections::use_line))]
    fn use_line(&mut self, origin: FileLine<&'a str>) -> Result<u32, Failure<FaultKind>>
        ensures told { Meets (λ _. progress_of self.new) (meaning.use_line (origin_of origin.entry) (progress_of self.old)) result }
        ensures full { IsFull result }
        ensures line { IfOk result (λ number. number ≡ origin.entry.line) }
    {
        if !is_line_number(origin.line) {
            return Err(Failure::Fault(FaultKind::TooLarge));
        }
        self.use_file(origin.file)?;
        Ok(origin.line as u32)
    }

    /// Adds a mark where an instruction begins, with its size in words.
    pub(crate) fn mark(
        &mut self,
        origin: FileLine<&'a str>,
        section: u16,
        offset: u16,
        words: u8,
    ) -> Result<(), Failure<FaultKind>>
        ensures told { Meets (λ _. progress_of self.new) (marked (origin_of origin.entry) (record { section = section; offset = offset; size = words }) (progress_of self.old)) result }
        ensures full { IsFull result }
    {
        let number = self.use_line(origin)?;
        let mark = ModuleMark {
            section,
            offset,
            size: words,
        };
        self.sections
            .mark(mark, origin.file, number)
            .map_err(Failure::NoMemory)
    }

    /// Adds a block, words that have to lie in one page, where the flag is set.
    pub(crate) fn block(
        &mut self,
        flag: bool,
        section: u16,
        offset: u32,
        words: usize,
    ) -> Result<(), NoMemory>
        requires within { offset + words ≤ 65536 }
        requires size { IsBlockSize flag words }
        ensures told { OnOk result (progress_of self.new ≡ meaning.block flag section offset words (progress_of self.old)) }
        ensures names { (progress_of self.new).names ≡ (progress_of self.old).names }
    {
        if !flag {
            return Ok(());
        }
        let block = Block {
            section,
            offset: offset as u16,
            size: words as u8,
        };
        self.sections.block(section, block)
    }

    /// Checks that there are at most 65,535 names; else `TooLarge` (54).
    pub(crate) fn few(&self) -> Result<(), FaultKind>
        ensures told { result ≡ meaning.few (progress_of self.now) }
        ensures full { IfErr result (λ kind. is_last_kind kind ≡ true) }
        ensures few { IfOk result (λ _. meaning.name_count (progress_of self.now).names (progress_of self.now).declared ≤ 65535) }
    {
        let defined = self.symbols.len();
        if defined > MOST_NAMES || self.missing > MOST_NAMES - defined {
            Err(FaultKind::TooLarge)
        } else {
            Ok(())
        }
    }
}
