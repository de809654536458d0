//! The plain parts of a module of relocatable words, and the faults of bytes that are not a module.

use c25_meaning_common::relocation::RelocationKind;
use thiserror::Error;

/// The version of an object file: which records it may hold.
#[derive(Clone, Copy, PartialEq, Debug)]
pub enum Version {
    /// Sections, marks, symbols and relocations.
    One,
    /// Also files, lines and blocks, and addresses that count from where a section is loaded.
    Two,
}

/// What a symbol's value counts from.
#[derive(Clone, Copy, PartialEq)]
pub enum SymbolKind {
    /// From 0.
    Absolute,
    /// From where the section of that number, counted from 0, runs.
    InSection(u16),
    /// From where the section of that number is loaded.
    Loaded(u16),
    /// External: another module defines the symbol, and it has no value here.
    External,
}

/// Which modules see a symbol.
#[derive(Clone, Copy)]
pub enum Scope {
    /// The symbol's own module alone.
    Local,
    /// All modules that are linked.
    Global,
}

/// An instruction of one or two words: its section, counted from 0, and its offset there in words.
#[derive(Clone, Copy, PartialEq, Debug)]
pub struct ModuleMark {
    pub section: u16,
    pub offset: u16,
    pub size: u8,
}

/// What a relocation adds its addend to.
#[derive(Clone, Copy, PartialEq, Debug)]
pub enum RelocationBase {
    /// The address where the section of that number runs.
    Section(u16),
    /// The address where the section of that number is loaded.
    Loaded(u16),
    /// The value of the external symbol of that number, counted from 0 among the module's symbols.
    External(u16),
}

/// A field of a word that is filled when modules are linked: the word's section and offset, the
/// field, and what it is filled from.
#[derive(Clone, Copy, PartialEq, Debug)]
pub struct Relocation {
    pub section: u16,
    pub offset: u16,
    pub kind: RelocationKind,
    pub base: RelocationBase,
    pub addend: i32,
}

/// The line that the instruction of a mark comes from: the number of its file, counted from 0 among the
/// module's files, and the line's number, counted from 1.
#[derive(Clone, Copy, PartialEq, Debug)]
pub struct LineMark {
    pub file: u16,
    pub line: u32,
}

/// Words of an uninitialised section that must lie in one page of 128 words of data memory: the section,
/// counted from 0, the offset there, and how many words.
#[derive(Clone, Copy, PartialEq, Debug)]
pub struct Block {
    pub section: u16,
    pub offset: u16,
    pub size: u8,
}

/// Why bytes are not a module: the first fault in them, from the front.
#[derive(Clone, Copy, PartialEq, Debug, Error)]
#[error("{}", self.name())]
pub enum ObjectFault {
    /// The bytes do not begin with `C25O` (40).
    BadMagic,
    /// The version is unknown or missing (41).
    BadVersion,
    /// The bytes end before the last record does (42).
    Short,
    /// A record's tag is unknown in this version, or less than that of a record before it (43).
    BadTag,
    /// A record's payload does not have the form of its tag, or the record may not follow those before it
    /// (44).
    BadField,
    /// Bytes follow the last record (45).
    Trailing,
}

impl ObjectFault {
    ghost use Rattle.std.specs.Prelude.{◌≡◌};
    ghost use Rattle.c25_meaning_objects.specs.Faults.{object_name, object_number};

    /// The fault's number, as shown to the user.
    pub fn number(&self) -> u8
        ensures { result ≡ object_number self.now }
    {
        match self {
            ObjectFault::BadMagic => 40,
            ObjectFault::BadVersion => 41,
            ObjectFault::Short => 42,
            ObjectFault::BadTag => 43,
            ObjectFault::BadField => 44,
            ObjectFault::Trailing => 45,
        }
    }

    /// The fault's name, as shown to the user.
    pub fn name(&self) -> &'static str
        ensures { result.now ≡ object_name self.now }
    {
        match self {
            ObjectFault::BadMagic => "BadMagic",
            ObjectFault::BadVersion => "BadVersion",
            ObjectFault::Short => "Short",
            ObjectFault::BadTag => "BadTag",
            ObjectFault::BadField => "BadField",
            ObjectFault::Trailing => "Trailing",
        }
    }
}
