//! The sections, symbols and entry of a linked program.

/// The part that a module has of a section.
#[derive(Drop)]
pub struct Part {
    /// The decimal digits of the module's number, counted from 0: a map may have a number of any size.
    pub number: String,
    /// The address of the part's first word; 65,536 for an empty part after a full page.
    pub base: u32,
    /// How many words the part has.
    pub size: u32,
}

/// A section of the program: the modules' sections of one name.
#[derive(Drop)]
pub struct OutputSection {
    pub name: String,
    /// Page 0 is program memory, page 1 data memory.
    pub page: u8,
    /// The address where the section's first word is loaded.
    pub base: u32,
    /// How many words the section has.
    pub size: u32,
    /// The section's run address, where `run =` gives one.
    pub run: Option<u32>,
    /// The parts of the section, by modules.
    pub parts: Vec<Part>,
}

/// A global symbol, with the low 32 bits of its value.
#[derive(Drop)]
pub struct GlobalSymbol {
    pub name: String,
    pub value: u32,
}

/// The map of a linked program.
#[derive(Drop)]
pub struct Map {
    /// The sections in the order of placement.
    pub sections: Vec<OutputSection>,
    /// The global symbols, by modules and symbols.
    pub symbols: Vec<GlobalSymbol>,
    /// The entry, where a command names one.
    pub entry: Option<GlobalSymbol>,
}
