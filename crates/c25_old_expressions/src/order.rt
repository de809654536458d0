//! The order in which operators act.

/// The order in which the operators between operands act; by it an old operand is read as its assembler reads it.
#[derive(Clone, Copy, PartialEq, Debug)]
pub enum Order {
    /// From left to right, as they are written: assemblers before COFF.
    AsWritten,
    /// By their levels, as in C: the COFF assembler (SPRU018, "Operators").
    ByLevel,
}
