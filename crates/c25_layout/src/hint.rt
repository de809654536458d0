//! Hints: what a user knows of an image.

use thiserror::Error;

/// A hint. The code has names as `String`, the definitions as lists of bytes.
#[derive(Drop)]
pub enum Hint<Name> {
    /// An instruction begins here.
    Code { address: u16 },
    /// So many words are data.
    Data { address: u16, count: u16 },
    /// So many words, `step` apart, are addresses of code.
    Table { address: u16, count: u16, step: u16 },
    /// The name of an address.
    Label { address: u16, name: Name },
    /// The number of the instruction here is an address.
    Reference { address: u16 },
    /// The number of the instruction here is no address.
    Number { address: u16 },
    /// So many words that are loaded at one address run at another.
    Run { address: u16, count: u16, run: u16 },
    /// A call of this address does not come back.
    NoReturn { address: u16 },
}

/// A line is no hint. It is reported with the number of the line, counted from 1.
#[derive(Clone, Copy, Debug, Error)]
#[error("{}", self.name())]
pub struct BadHint;

impl BadHint {
    ghost use Rattle.std.specs.Prelude.{◌≡◌, codes};

    /// The name of the fault shown to the user.
    pub fn name(&self) -> &'static str
        ensures { result.now ≡ codes "BadHint" }
    {
        "BadHint"
    }
}
