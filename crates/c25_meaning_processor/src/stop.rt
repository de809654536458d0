//! Why a step stops.

use thiserror::Error;

/// Why a step stopped. A step that stops changes nothing.
#[derive(Clone, Copy, PartialEq, Debug, Error)]
#[error("{}", self.name())]
pub enum Stop {
    /// No instruction can be fetched at PC.
    OutOfCode,
    /// `TBLW` would write a loaded word of an instruction, even if with the same word.
    CodeWrite,
    /// The instruction at PC may not be repeated, and a repeat is running.
    BadRepeat,
    /// `IN` found no sample left at its port.
    PortDry,
}

impl Stop {
    ghost use Rattle.std.specs.Prelude.{◌≡◌, ◌≤◌, length};
    ghost use Rattle.c25_meaning_processor.specs.RunText.{stop_name};

    /// The name of the stop shown to the user.
    pub fn name(&self) -> &'static str
        ensures name { result.now ≡ stop_name self.now }
        ensures short { length result.now ≤ 9 }
    {
        match self {
            Stop::OutOfCode => "OutOfCode",
            Stop::CodeWrite => "CodeWrite",
            Stop::BadRepeat => "BadRepeat",
            Stop::PortDry => "PortDry",
        }
    }
}
