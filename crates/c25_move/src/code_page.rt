//! The code pages by which bytes are read that are no UTF-8.

/// A code page: what each byte stands for.
#[derive(Clone, Copy, PartialEq, Debug)]
pub enum CodePage {
    /// That of DOS (code page 437).
    Cp437,
    /// Latin-1 (ISO 8859-1): each byte is the character of its number.
    Latin1,
}
