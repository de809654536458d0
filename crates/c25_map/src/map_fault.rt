//! Why a text is not read as a map.

use thiserror::Error;

/// Why a text is not read as a map. The number in parentheses is the fault number shown to the user.
#[derive(Clone, Copy, Debug, Error)]
#[error("{}", self.name())]
pub enum MapFault {
    /// The text is not that of a map (77).
    BadMap,
}

impl MapFault {
    ghost use Rattle.std.specs.Prelude.{◌≡◌, codes};

    /// The fault number shown to the user.
    pub fn number(&self) -> u8
        ensures { result ≡ 77 }
    {
        match self {
            MapFault::BadMap => 77,
        }
    }

    /// The fault name shown to the user.
    pub fn name(&self) -> &'static str
        ensures { result.now ≡ codes "BadMap" }
    {
        match self {
            MapFault::BadMap => "BadMap",
        }
    }
}
