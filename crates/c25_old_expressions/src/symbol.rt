//! The symbols of operands.

use c25_meaning_language::line::Sign;

/// A symbol of an operand. It borrows the line.
#[derive(Clone, Copy)]
pub enum Symbol<'a> {
    /// A constant. One above 2,147,483,647 is kept as 2,147,483,648, which has no value.
    Constant(u32),
    /// A name.
    Name(&'a [u8]),
    /// `$`, the current place.
    Here,
    /// A sign.
    Signed(Sign),
    /// A string, or a name with a dot: no part of an expression.
    Text(&'a [u8]),
}
