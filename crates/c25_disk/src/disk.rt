//! The trait of what files are read from and written to.

ghost use Rattle.std.specs.Prelude.{◌≡◌, ◌∷◌, [], Some, IfOk, IfSome, OnErr, OnOk, is_ok};
ghost use Rattle.c25_disk.specs.Held.{Adds, Stay};

use crate::refusal::Refusal;
use std::io::Read;
use thiserror::Error;

/// A file could not be opened or written.
#[derive(Clone, Copy, PartialEq, Debug, Error)]
#[error("the system refuses")]
pub struct DiskFault;

/// A place of named files: the system's, or files in memory.
pub trait Disk {
    ghost use Rattle.std.specs.Prelude.{ℕ, Bool, List, None, Option};
    ghost use Rattle.c25_disk.specs.declared.refusal.Refusal.{Refusal};

    /// An open file, read from its beginning.
    type Reader: Read + Drop;

    /// The bytes of the file of a name, where they are known.
    ghost bytes_of: { Self → List ℕ → Option (List ℕ) };

    /// Whether the file of a name can be opened, where that is known.
    ghost opens: { Self → List ℕ → Option Bool } = { λ _ _. None };

    /// What may be said of why the file of a name cannot be opened or read.
    ghost refuses: { Self → List ℕ → Refusal → Type 0 } = { λ _ _ _. ⊥ };

    /// The files that were written whole, where that is known: names and bytes, the oldest first.
    ghost written: { Self → Option (List (List ℕ × List ℕ)) };

    /// Opens a file for reading.
    fn open(&self, name: &str) -> Result<Self::Reader, DiskFault>
        ensures bytes { IfOk result (λ reader. IfSome (bytes_of self.now name.now) (λ bytes. Self.Reader.remaining reader ≡ Some bytes)) }
        ensures opened { IfSome (opens self.now name.now) (λ can. is_ok result ≡ can) };

    /// Why the file of a name cannot be opened, or why the first read of it fails; `None` where neither is so or
    /// nothing is known of it.
    fn refusal(&self, name: &str) -> Option<Refusal>
        ensures said { IfSome result (refuses self.now name.now) }
    {
        let _ = name;
        None
    }

    /// Writes a whole file, replacing one of the same name. After a fault the file may have some of the
    /// bytes, and counts as not written.
    fn write(&mut self, name: &str, bytes: &[u8]) -> Result<(), DiskFault>
        ensures whole { OnOk result (Adds (written self.old) (written self.new) ((name.now, bytes.now) ∷ [])) }
        ensures refused { OnErr result (Stay (written self.old) (written self.new)) };
}
