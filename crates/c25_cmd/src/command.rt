//! What a command file says.

/// A range of a page, which sections may be placed in.
#[derive(Drop)]
pub struct MemoryRange {
    /// Page 0 is program memory, page 1 data memory.
    pub page: u8,
    pub name: String,
    /// The address of the range's first word.
    pub origin: u32,
    /// How many words the range has.
    pub length: u32,
}

/// Where a section is to stand.
#[derive(Drop)]
pub enum Target {
    /// Wherever the linker finds room.
    Anywhere,
    /// In the range of this name.
    InRange(String),
    /// At this address. A number above 4,294,967,295 in the text is 4,294,967,295 here, and no address of a
    /// page either.
    At(u32),
}

/// What `SECTIONS` says of the sections of one name.
#[derive(Drop)]
pub struct Placing {
    pub name: String,
    pub target: Target,
    /// The page, 0 or 1, where one is named.
    pub page: Option<u8>,
    /// The address where the sections run, where `run =` gives one. A number above 4,294,967,295 is
    /// 4,294,967,295 here, as in [`Target::At`].
    pub run: Option<u32>,
}

/// What a command file says.
#[derive(Drop)]
pub struct Command {
    /// The name after `-e`.
    pub entry: Option<String>,
    /// The ranges in the order of the text, or `None` without a `MEMORY`: `MEMORY { }` has no ranges,
    /// while for a text without one the linker has ranges of its own.
    pub memory: Option<Vec<MemoryRange>>,
    /// The sections in the order of the text, or `None` without a `SECTIONS`.
    pub sections: Option<Vec<Placing>>,
}
