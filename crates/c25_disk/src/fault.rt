//! Faults of files.

ghost use Rattle.std.specs.Prelude.{◌≡◌, IfOk, string_bytes};
ghost use Rattle.c25_disk.specs.Held.{IsOfFile};
ghost use Rattle.c25_disk.specs.declared.fault.FileFault.TheVariants as file;

use c25_files::CannotRead;
use c25_meaning_common::failure::Failure;
use c25_meaning_common::no_memory::NoMemory;
use c25_meaning_common::placed::Placed;
use std::alloc::Global;
use thiserror::Error;

/// What is wrong with a file; its place is the file's name.
#[derive(Clone, Copy, Debug, Error)]
#[error("{}", self.name())]
pub enum FileFault {
    /// The file cannot be written (7).
    CannotWrite,
    /// The file cannot be opened or read, has more than 16,777,216 bytes or is not UTF-8, or it is the 257th
    /// copied file (8).
    CannotRead,
    /// The file is given as a source twice (37).
    FileTwice,
}

impl FileFault {
    ghost use Rattle.c25_disk.specs.FaultNames.{file_fault_name, file_fault_number};

    /// The fault number shown to the user.
    pub fn number(&self) -> u8
        ensures { result ≡ file_fault_number self.now }
    {
        match self {
            FileFault::CannotWrite => 7,
            FileFault::CannotRead => 8,
            FileFault::FileTwice => 37,
        }
    }

    /// The fault name shown to the user.
    pub fn name(&self) -> &'static str
        ensures { result.now ≡ file_fault_name self.now }
    {
        match self {
            FileFault::CannotWrite => "CannotWrite",
            FileFault::CannotRead => "CannotRead",
            FileFault::FileTwice => "FileTwice",
        }
    }
}

/// A fault of a named file, unless the copy of the name runs out of memory.
pub(crate) fn fault_of_file(
    alloc: Global,
    name: &str,
    fault: FileFault,
) -> Failure<Placed<String, FileFault>>
    ensures { IsOfFile name.now fault result }
{
    match String::from_str(alloc, name) {
        Ok(place) => Failure::Fault(Placed { place, fault }),
        Err(error) => Failure::NoMemory(NoMemory::from(error)),
    }
}

/// The fault of a named file that cannot be read (8), unless memory ran out.
pub(crate) fn unread(
    alloc: Global,
    name: &str,
    failure: Failure<CannotRead>,
) -> Failure<Placed<String, FileFault>>
    ensures { IsOfFile name.now file.CannotRead result }
{
    match failure {
        Failure::NoMemory(error) => Failure::NoMemory(error),
        Failure::Fault(CannotRead) => fault_of_file(alloc, name, FileFault::CannotRead),
    }
}
