//! Failures of files as failures of the chain, and files that need not be named.

ghost use Rattle.std.specs.Option.{option_map};
ghost use Rattle.std.specs.Prelude.{◌≡◌, IfOk, map, string_bytes};
ghost use Rattle.c25_options.specs.Task.{text_of, texts_of};
ghost use Rattle.c25_inputs.specs.Files.{IsToldOfCopies, IsToldOfFile, ReadsNamed, ReadsOptional, missing_name};

use c25_chain::fault::{ChainFault, Fault};
use c25_disk::disk::Disk;
use c25_disk::fault::FileFault;
use c25_disk::read_file;
use c25_disk::work::CopyFault;
use c25_meaning_common::failure::Failure;
use c25_meaning_common::no_memory::NoMemory;
use c25_meaning_common::placed::Placed;
use std::alloc::Global;

/// A failure of a file as a failure of the chain.
pub fn fault_of_file(failure: Failure<Placed<String, FileFault>>) -> Fault
    ensures { IsToldOfFile failure result }
{
    match failure {
        Failure::NoMemory(error) => Failure::NoMemory(error),
        Failure::Fault(fault) => Failure::Fault(ChainFault::File(fault)),
    }
}

/// A failure of a task over files that may be copied as a failure of the chain.
pub fn fault_of_copies(failure: Failure<CopyFault<ChainFault<String>>>) -> Fault
    ensures { IsToldOfCopies failure result }
{
    match failure {
        Failure::NoMemory(error) => Failure::NoMemory(error),
        Failure::Fault(CopyFault::File(fault)) => Failure::Fault(ChainFault::File(fault)),
        Failure::Fault(CopyFault::Work(refusal)) => Failure::Fault(refusal),
    }
}

/// The name of the copied file that a fault asks for, if it asks for one.
pub fn missing_name(refusal: &ChainFault<String>) -> Option<&str>
    ensures { option_map (λ name. name.now) result ≡ missing_name refusal.now }
{
    match refusal {
        ChainFault::NoFile { name, .. } => Some(name.as_str()),
        _ => None,
    }
}

/// Reads the text of a file. A file that cannot be read is fault 8.
pub fn read_named<D: Disk>(alloc: Global, disk: &D, name: &str) -> Result<String, Fault>
    ensures { ReadsNamed (D.bytes_of disk.now) name.now result }
{
    match read_file(alloc, disk, name) {
        Ok(text) => Ok(text),
        Err(failure) => Err(fault_of_file(failure)),
    }
}

/// Reads the text of a file; the text is empty where no file is named. A named file that cannot be read is
/// fault 8.
pub fn read_optional<D: Disk>(alloc: Global, disk: &D, name: Option<&str>) -> Result<String, Fault>
    ensures { ReadsOptional (D.bytes_of disk.now) (text_of name.entry) result }
{
    match name {
        Some(name) => read_named(alloc, disk, name),
        None => Ok(String::new(alloc)),
    }
}

/// Copies of names.
pub fn names_of(alloc: Global, names: &[&str]) -> Result<Vec<String>, NoMemory>
    ensures { IfOk result (λ copies. map string_bytes copies.items ≡ texts_of names.now) }
{
    let mut copies = Vec::new(alloc);
    for name in names {
        copies.push(String::from_str(alloc, name)?)?;
    }
    Ok(copies)
}
