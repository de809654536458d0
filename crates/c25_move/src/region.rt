//! Where a line stands in a source.

/// Where a line stands in a source.
#[derive(Clone, Copy, PartialEq, Debug)]
pub enum Region {
    /// Neither in the body of a macro nor after the end.
    Outside,
    /// In the body of a macro.
    Body,
    /// After the line that ends the source.
    Behind,
}
