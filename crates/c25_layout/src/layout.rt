//! Layouts of images: parts at addresses, each of rows.

use c25_meaning_instructions::insn::Insn;

/// The address that a name stands for, or one some words after it.
#[derive(Drop)]
pub struct Target {
    pub name: String,
    /// How many words after the name the address is.
    pub after: u16,
}

/// What a row is.
#[derive(Drop)]
pub enum Item {
    /// An instruction whose numbers stay numbers.
    Plain(Insn),
    /// An instruction of two words, with a name in place of the second one.
    Named(Insn, Target),
    /// Words of data.
    Words(Vec<u16>),
    /// A word of data that is an address, with the name that stands for it.
    Address(u16, Target),
}

/// A row of a part: an instruction or words of data, with its names.
#[derive(Drop)]
pub struct Row {
    /// Where its first word is loaded.
    pub address: u16,
    /// The name of where it runs.
    pub label: Option<String>,
    /// The name of where it is loaded, for a row that runs elsewhere.
    pub load_label: Option<String>,
    pub item: Item,
}

/// An unbroken run of words.
#[derive(Drop)]
pub struct Part {
    /// Where its first word is loaded.
    pub address: u16,
    /// Where its first word runs, if that is elsewhere: in block B0.
    pub run: Option<u16>,
    pub rows: Vec<Row>,
}
