//! Parts of a line.

/// A part of a line: the place of its first byte, and that after its last, counted from 0.
#[derive(Clone, Copy, PartialEq, Debug)]
pub struct Part {
    pub start: usize,
    pub end: usize,
}
