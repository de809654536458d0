//! Whether a byte of a line stands in quotes or in the comment.

/// Where a byte of a line stands: substitution depends on it.
#[derive(Clone, Copy)]
pub enum Quoting {
    /// Outside quotes and the comment.
    Outside,
    /// Inside quotes; the next byte that is this quote closes them.
    Within(u8),
    /// In a text that replaces a name inside quotes: all of it is quoted, and a quote in it closes nothing.
    Throughout,
    /// In a comment.
    Comment,
}
