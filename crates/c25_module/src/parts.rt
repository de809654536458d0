//! The lists that a module consists of.

use c25_meaning_objects::object::{
    Block, LineMark, ModuleMark, Relocation, Scope, SymbolKind, Version,
};

/// The body of a section: the number of words that it reserves, or its words.
#[derive(Drop)]
pub enum Body {
    /// The number of reserved words; nothing is loaded there.
    Uninitialised(u32),
    /// The words that are loaded; a field that a relocation fills is 0 in its word.
    Initialised(Vec<u16>),
}

/// A section: its name and its body.
#[derive(Drop)]
pub struct Section {
    pub name: String,
    pub body: Body,
}

/// A symbol. Its value is an offset in words where its kind is [`SymbolKind::InSection`] or
/// [`SymbolKind::Loaded`], which may lie outside the section; it is 0 where its kind is [`SymbolKind::External`].
#[derive(Drop)]
pub struct Symbol {
    pub kind: SymbolKind,
    pub scope: Scope,
    pub value: i32,
    pub name: String,
}

/// The lists of a module, each in the order in which its records are written. Sections and symbols
/// are named by their numbers from 0; marks, relocations and blocks ascend by section and offset.
/// In version 2 there is a line for each mark, in the order of marks, and `files` has the names of
/// the lines' files in the order in which lines first use them; in version 1 there are none of the
/// last three.
#[derive(Drop)]
pub struct Parts {
    pub sections: Vec<Section>,
    pub marks: Vec<ModuleMark>,
    pub symbols: Vec<Symbol>,
    pub relocations: Vec<Relocation>,
    pub version: Version,
    pub files: Vec<String>,
    pub lines: Vec<LineMark>,
    pub blocks: Vec<Block>,
}
