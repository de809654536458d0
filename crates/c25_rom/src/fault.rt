//! The fault of a ROM.

use thiserror::Error;

/// A word of a program has no place in a ROM: its address is the ROM's number of words or beyond (79).
#[derive(Clone, Copy, PartialEq, Debug, Error)]
#[error("{}", self.name())]
pub struct PastRom {
    /// The lowest address of such a word.
    pub address: u16,
}

impl PastRom {
    ghost use Rattle.std.specs.Prelude.{◌≡◌, codes};

    /// The fault number shown to the user.
    pub fn number(&self) -> u8
        ensures { result ≡ 79 }
    {
        79
    }

    /// The fault name shown to the user.
    pub fn name(&self) -> &'static str
        ensures { result.now ≡ codes "PastRom" }
    {
        "PastRom"
    }
}
