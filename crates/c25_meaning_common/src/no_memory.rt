//! Out of memory.

use std::alloc::{AllocError, AllocFailed};
use thiserror::Error;

/// Out of memory: the allocator refused to give more (fault 9). Every call of the workspace that allocates
/// may fail so. A value of this type is made from std's own errors and from nothing else, so it shows that
/// std reported one. std also reports one with ample memory left, where a call asks for more than there can
/// be, or where a `Display` that is written into a `String` fails.
#[derive(Clone, Copy, PartialEq, Debug, Error)]
#[error("{}", self.name())]
pub struct NoMemory {
    refused: (),
}

impl NoMemory {
    ghost use Rattle.std.specs.Prelude.{◌≡◌, codes};

    /// The name shown to the user.
    pub fn name(&self) -> &'static str
        ensures { result.now ≡ codes "NoMemory" }
    {
        "NoMemory"
    }
}

impl From<AllocError> for NoMemory {
    fn from(_error: AllocError) -> NoMemory {
        NoMemory { refused: () }
    }
}

impl<T: Drop> From<AllocFailed<T>> for NoMemory {
    fn from(_error: AllocFailed<T>) -> NoMemory {
        NoMemory { refused: () }
    }
}
