//! The listing of a module.

ghost use Rattle.std.specs.Prelude.{◌≤◌, ◌+◌};

use c25_module::Module;
use std::borrow::CowStr;

/// A line of a listing, and where its words are.
#[derive(Drop)]
pub struct Entry<'a> {
    /// The line's number in its file.
    pub line: usize,
    /// The line's text, without its end; borrowed from the file's text where nothing was replaced in it.
    pub text: CowStr<'a>,
    /// The number of the section in which the line stands.
    pub section: u16,
    /// The offset at which the line's words begin in that section.
    pub offset: u32,
    /// How many words the line added to that section; 0 for words that it reserved in another one.
    pub count: u32,
    ghost within: { offset + count ≤ 65536 },
}

/// A module, and the expanded lines that made it, each with the place of its words.
#[derive(Drop)]
pub struct Listing<'a> {
    pub module: Module,
    /// One entry for each expanded line, in order.
    pub entries: Vec<Entry<'a>>,
}
