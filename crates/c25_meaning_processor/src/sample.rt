//! Samples: what the input ports read.

use thiserror::Error;

/// A word that `IN` reads at a port.
#[derive(Clone, Copy)]
pub struct Sample {
    /// The port, 0 to 15.
    pub port: u16,
    pub word: u16,
}

/// A line is no sample (91). It is reported with the number of the line, counted from 1.
#[derive(Clone, Copy, Debug, Error)]
#[error("{}", self.name())]
pub struct BadSamples;

impl BadSamples {
    ghost use Rattle.std.specs.Prelude.{◌≡◌, codes};

    /// The fault number shown to the user.
    pub fn number(&self) -> u8
        ensures { result ≡ 91 }
    {
        91
    }

    /// The name of the fault shown to the user.
    pub fn name(&self) -> &'static str
        ensures { result.now ≡ codes "BadSamples" }
    {
        "BadSamples"
    }
}
