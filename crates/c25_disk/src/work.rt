//! Tasks over the texts of files.

ghost use Rattle.std.specs.Prelude.{◌≡◌};
ghost use Rattle.std.specs.Option.{option_map};

use crate::fault::FileFault;
use c25_files::files::Files;
use c25_meaning_common::failure::Failure;
use c25_meaning_common::placed::Placed;
use std::alloc::Global;
use std::fmt;
use thiserror::Error;

/// A task over the texts of files, which may ask for a file that has not been read.
pub trait Work {
    ghost use Rattle.std.specs.Prelude.{ℕ, List, Option, Result};
    ghost use Rattle.c25_meaning_common.specs.declared.failure.Failure.{Failure};
    ghost use Rattle.c25_meaning_expansion.specs.Files.{Files};

    type Answer: Drop;

    /// Why the task has no answer.
    type Fault: Drop;

    /// What the task may answer over these files.
    ghost comes_to: { Self → Files → Result Self.Answer (Failure Self.Fault) → Type 0 };

    /// The name of the file that a fault asks for.
    ghost missing_of: { Self.Fault → Option (List ℕ) };

    /// Runs the task from its start.
    fn answer(&self, alloc: Global, files: &Files) -> Result<Self::Answer, Failure<Self::Fault>>
        ensures { comes_to self.now files.now result };

    /// The name of the file that a fault asks for, if it asks for one.
    fn missing(fault: &Self::Fault) -> Option<&str>
        ensures { option_map (λ name. name.now) result ≡ missing_of fault.now };
}

/// Why a task over files that may be copied has no answer.
#[derive(Debug, Drop, Error)]
#[error_bound(F: fmt::Display)]
pub enum CopyFault<F> {
    /// A file that the task asks for cannot be read, or is the 257th of them (8).
    #[error(transparent)]
    File(Placed<String, FileFault>),
    /// The task's own fault, which asks for no file that is missing.
    #[error(transparent)]
    Work(F),
}
