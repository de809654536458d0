//! Lines of a source after expansion.

use std::borrow::CowStr;

/// A line of a source after expansion, and the words by which it made its section longer.
#[derive(Drop)]
pub struct SourceLine<'a> {
    pub file: &'a str,
    pub line: usize,
    pub text: CowStr<'a>,
    pub section: u16,
    pub offset: u32,
    pub count: u32,
}
