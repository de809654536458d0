//! The faults of binary images.

use thiserror::Error;

/// Why bytes are no words.
#[derive(Clone, Copy, PartialEq, Debug, Error)]
#[error("{}", self.name())]
pub enum BinaryFault {
    /// The files of a pair have not the same number of bytes.
    LengthsDiffer,
    /// A file has half a word at its end.
    OddLength,
    /// There are more than 65,536 words.
    TooLong,
}

impl BinaryFault {
    ghost use Rattle.std.specs.Prelude.{◌≡◌};
    ghost use Rattle.c25_binary.specs.Binary.{binary_name};

    /// The name of the fault shown to the user.
    pub fn name(&self) -> &'static str
        ensures { result.now ≡ binary_name self.now }
    {
        match self {
            BinaryFault::LengthsDiffer => "LengthsDiffer",
            BinaryFault::OddLength => "OddLength",
            BinaryFault::TooLong => "TooLong",
        }
    }
}
