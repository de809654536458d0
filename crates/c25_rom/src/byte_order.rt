//! The order of the two bytes of a word in a file.

/// Which byte of a word comes first.
#[derive(Clone, Copy, PartialEq, Debug)]
pub enum ByteOrder {
    /// The high byte, as in an Intel hex text of words.
    HighFirst,
    /// The low byte.
    LowFirst,
}
