//! A line of an old source that is moved.

use c25_meaning_language::statement::FaultKind;
use c25_move_lines::Change;

/// How a line ends.
#[derive(Clone, Copy, PartialEq, Debug)]
pub enum LineEnd {
    /// With a line feed.
    Feed,
    /// With a carriage return and a line feed.
    ReturnFeed,
    /// With the text.
    End,
}

/// A line of an old source, what becomes of it, and the faults of the new lines that the assembler does not read.
#[derive(Drop)]
pub struct MovedLine<'a> {
    pub old: &'a str,
    pub end: LineEnd,
    pub change: Change,
    pub refused: Vec<FaultKind>,
}
