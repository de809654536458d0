//! What is wrong with a command file of the linker.

use thiserror::Error;

/// Why a command file is refused. The place of the fault is a line, counted from 1; while the file is read it
/// is the byte, counted from 0, where the token begins at which the fault is reported.
#[derive(Clone, Copy, PartialEq, Debug, Error)]
#[error("{}", self.name())]
pub enum CommandFault {
    /// A token that cannot stand where it is, or a text that ends too soon (60).
    Syntax,
    /// A range that shares a word with an earlier one of its page (61).
    RangeOverlap,
    /// A range without words, or one that goes beyond the 65,536 words of its page (62).
    RangeSize,
    /// A second `MEMORY`, `SECTIONS` or `-e`, a second range of one name on one page, or a second
    /// section of one name (63).
    Twice,
}

impl CommandFault {
    ghost use Rattle.std.specs.Prelude.{◌≡◌};
    ghost use Rattle.c25_meaning_linking.specs.CommandFaults.{command_name, command_number};

    /// The fault's number, as shown to the user.
    pub fn number(&self) -> u8
        ensures { result ≡ command_number self.now }
    {
        match self {
            CommandFault::Syntax => 60,
            CommandFault::RangeOverlap => 61,
            CommandFault::RangeSize => 62,
            CommandFault::Twice => 63,
        }
    }

    /// The fault's name, as shown to the user.
    pub fn name(&self) -> &'static str
        ensures { result.now ≡ command_name self.now }
    {
        match self {
            CommandFault::Syntax => "Syntax",
            CommandFault::RangeOverlap => "RangeOverlap",
            CommandFault::RangeSize => "RangeSize",
            CommandFault::Twice => "Twice",
        }
    }
}
