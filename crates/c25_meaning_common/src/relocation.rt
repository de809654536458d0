//! How an address goes into a field of a word.

/// Which bits of a word an address fills, and which part of its value goes there.
#[derive(Clone, Copy, PartialEq, Debug)]
pub enum RelocationKind {
    /// All sixteen bits, with the low sixteen of the value.
    Word16,
    /// The low seven bits, with the value modulo 128: a direct address.
    Low7,
    /// The low nine bits, with the value divided by 128: the page of `LDPK`.
    Page9,
}
