//! Why modules cannot be linked.

use thiserror::Error;

/// Why modules cannot be linked under a command. The place of the fault is a name: that of a symbol for 70,
/// 71 and 76, that of a section for 72 to 75 and 78.
#[derive(Clone, Copy, Debug, Error)]
#[error("{}", self.name())]
pub enum LinkFault {
    /// A relocation counts from an external symbol that no module defines (70).
    Unresolved,
    /// A second module defines a global symbol of this name (71).
    DefinedTwice,
    /// There is no range of the name that the section asks for, or its page has no range (72).
    NoRange,
    /// There is no room for a section; or at its address it does not lie inside one range, or a block of it
    /// not inside one page of 128 words (73).
    DoesNotFit,
    /// A section at its address shares a word with one that was placed before (74).
    Overlap,
    /// A relocated field does not take its value (75).
    RelocRange,
    /// The entry is not a global symbol that a module defines (76).
    NoEntry,
    /// A section cannot run at the address that the command file says (78).
    BadRun,
}

impl LinkFault {
    ghost use Rattle.std.specs.Prelude.{◌≡◌};
    ghost use Rattle.c25_meaning_linking.specs.LinkFaults.{link_name, link_number};

    /// The fault's number, as shown to the user.
    pub fn number(&self) -> u8
        ensures { result ≡ link_number self.now }
    {
        match self {
            LinkFault::Unresolved => 70,
            LinkFault::DefinedTwice => 71,
            LinkFault::NoRange => 72,
            LinkFault::DoesNotFit => 73,
            LinkFault::Overlap => 74,
            LinkFault::RelocRange => 75,
            LinkFault::NoEntry => 76,
            LinkFault::BadRun => 78,
        }
    }

    /// The fault's name, as shown to the user.
    pub fn name(&self) -> &'static str
        ensures { result.now ≡ link_name self.now }
    {
        match self {
            LinkFault::Unresolved => "Unresolved",
            LinkFault::DefinedTwice => "DefinedTwice",
            LinkFault::NoRange => "NoRange",
            LinkFault::DoesNotFit => "DoesNotFit",
            LinkFault::Overlap => "Overlap",
            LinkFault::RelocRange => "RelocRange",
            LinkFault::NoEntry => "NoEntry",
            LinkFault::BadRun => "BadRun",
        }
    }
}
