//! Sources read from a disk.

ghost use Rattle.std.specs.Prelude.{◌≡◌, [], IfErr, IfOk, OnErr, OnOk, false, is_some, map, string_bytes};
ghost use Rattle.c25_meaning_expansion.specs.Files.{text_named};
ghost use Rattle.c25_files.specs.Added.{AddsAll};
ghost use Rattle.c25_disk.specs.declared.fault.FileFault.TheVariants as kind;
ghost use Rattle.c25_disk.specs.Held.{AddsSource, IsAllOf, IsOfFile, ReadsSources};

use crate::disk::{Disk, DiskFault};
use crate::fault::{FileFault, fault_of_file, unread};
use c25_files::files::{AddFault, Files};
use c25_files::{CannotRead, read_text};
use c25_meaning_common::failure::Failure;
use c25_meaning_common::placed::Placed;
use std::alloc::Global;

/// The text of a file, or that it cannot be read.
fn text_of<D: Disk>(alloc: Global, disk: &D, name: &str) -> Result<String, Failure<CannotRead>>
    ensures { IfOk result (λ text. IsAllOf (D.bytes_of disk.now name.now) (string_bytes text)) }
{
    match disk.open(name) {
        Ok(reader) => {
            let mut reader = reader;
            read_text(alloc, &mut reader)
        }
        Err(DiskFault) => Err(Failure::Fault(CannotRead)),
    }
}

/// Reads the text of a file. `CannotRead` (8) where the file cannot be opened or read, has more than
/// 16,777,216 bytes, or is not UTF-8.
pub fn read_file<D: Disk>(
    alloc: Global,
    disk: &D,
    name: &str,
) -> Result<String, Failure<Placed<String, FileFault>>>
    ensures text { IfOk result (λ text. IsAllOf (D.bytes_of disk.now name.now) (string_bytes text)) }
    ensures fault { IfErr result (IsOfFile name.now kind.CannotRead) }
{
    match text_of(alloc, disk, name) {
        Ok(text) => Ok(text),
        Err(failure) => Err(unread(alloc, name, failure)),
    }
}

/// Whether `files` has a file of this name.
pub(crate) fn is_among(files: &Files, name: &str) -> bool
    ensures { result ≡ is_some (text_named files.now name.now) }
{
    files.text(name).is_some()
}

/// Reads a file whose name is new to `files`, and adds its text. After an error `files` is as before.
pub(crate) fn add_file<D: Disk>(
    disk: &D,
    files: &mut Files,
    name: &str,
) -> Result<(), Failure<CannotRead>>
    requires { is_some (text_named files.old name.now) ≡ false }
    ensures added { OnOk result (AddsAll (D.bytes_of disk.now name.now) name.now files.old files.new) }
    ensures refused { OnErr result (files.new ≡ files.old) }
{
    let Ok(reader) = disk.open(name) else {
        return Err(Failure::Fault(CannotRead));
    };
    let mut reader = reader;
    match files.add_from(name, &mut reader) {
        Ok(()) => Ok(()),
        Err(Failure::NoMemory(error)) => Err(Failure::NoMemory(error)),
        Err(Failure::Fault(AddFault::CannotRead)) => Err(Failure::Fault(CannotRead)),
        Err(Failure::Fault(AddFault::FileTwice)) => unreachable!(),
    }
}

/// Reads a source and adds it. A name that `files` already has is `FileTwice` (37), and its file is not
/// opened.
pub(crate) fn add_source<D: Disk>(
    alloc: Global,
    disk: &D,
    files: &mut Files,
    name: &str,
) -> Result<(), Failure<Placed<String, FileFault>>>
    ensures { AddsSource (D.bytes_of disk.now) files.old files.new name.now result }
{
    if is_among(files, name) {
        return Err(fault_of_file(alloc, name, FileFault::FileTwice));
    }
    match add_file(disk, files, name) {
        Ok(()) => Ok(()),
        Err(failure) => Err(unread(alloc, name, failure)),
    }
}

/// Reads the named sources in order. Stops at the first that is given twice (37) or cannot be read (8).
pub fn read_sources<D: Disk>(
    alloc: Global,
    disk: &D,
    names: &[&str],
) -> Result<Files, Failure<Placed<String, FileFault>>>
    ensures { ReadsSources (D.bytes_of disk.now) [] (map (λ name. name.now) names.now) result }
{
    let mut files = Files::new(alloc);
    for name in names {
        add_source(alloc, disk, &mut files, name)?;
    }
    Ok(files)
}
