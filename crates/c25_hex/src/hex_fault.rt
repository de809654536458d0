//! The faults of hex texts.

use thiserror::Error;

/// Why a line, or the text, is not Intel hex of 16-bit words. A fault is placed at the number of a line, from
/// 1, or at 0 where a text without lines has no end line. The numbers in parentheses are the fault numbers
/// shown to the user.
#[derive(Clone, Copy, Debug, Error)]
#[error("{}", self.name())]
pub enum HexFault {
    /// A line that is not blank does not begin with `:` (80).
    BadStart,
    /// A character after the `:` is not a hexadecimal digit (81).
    BadDigit,
    /// The digits are odd in number, the count is not that of the data bytes, or the record type calls for
    /// another count (82).
    BadCount,
    /// The bytes of a line do not add up to a multiple of 256 (83).
    BadSum,
    /// The record type is not one of 00 to 05 (84).
    BadKind,
    /// At the end line one byte of a word has been given and the other has not (85).
    OddWord,
    /// A byte is given twice, equal or not (86).
    Twice,
    /// The text ends without an end line (87).
    NoEnd,
    /// A line that is not blank follows the end line (88).
    AfterEnd,
    /// A line gives bytes past the 65,536 of its base, or past the 131,072 of the address space (89).
    AddressRange,
}

impl HexFault {
    ghost use Rattle.std.specs.Prelude.{◌≡◌};
    ghost use Rattle.c25_hex.specs.Faults.{hex_name, hex_number};

    /// The fault number shown to the user.
    pub fn number(&self) -> u8
        ensures { result ≡ hex_number self.now }
    {
        match self {
            HexFault::BadStart => 80,
            HexFault::BadDigit => 81,
            HexFault::BadCount => 82,
            HexFault::BadSum => 83,
            HexFault::BadKind => 84,
            HexFault::OddWord => 85,
            HexFault::Twice => 86,
            HexFault::NoEnd => 87,
            HexFault::AfterEnd => 88,
            HexFault::AddressRange => 89,
        }
    }

    /// The fault name shown to the user.
    pub fn name(&self) -> &'static str
        ensures { result.now ≡ hex_name self.now }
    {
        match self {
            HexFault::BadStart => "BadStart",
            HexFault::BadDigit => "BadDigit",
            HexFault::BadCount => "BadCount",
            HexFault::BadSum => "BadSum",
            HexFault::BadKind => "BadKind",
            HexFault::OddWord => "OddWord",
            HexFault::Twice => "Twice",
            HexFault::NoEnd => "NoEnd",
            HexFault::AfterEnd => "AfterEnd",
            HexFault::AddressRange => "AddressRange",
        }
    }
}
