//! How old sources are written.

/// How an old source is written.
#[derive(Clone, Copy, PartialEq, Debug)]
pub enum Style {
    /// For an assembler before COFF: directives have no dot; the operands end at the first blank that is neither in
    /// quotes nor directly after a comma, and what follows is a comment; operators act from left to right.
    Early,
    /// For TI's COFF assembler (SPRU018): directives have a dot, a comment begins with `;`, and operators bind as in C.
    Coff,
}
