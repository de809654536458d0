//! Reading files as bytes.

ghost use Rattle.std.specs.Prelude.{◌≡◌, IfErr, IfOk};
ghost use Rattle.c25_disk.specs.declared.fault.FileFault.TheVariants as kind;
ghost use Rattle.c25_disk.specs.Held.{IsAllOf, IsOfFile};

use crate::disk::{Disk, DiskFault};
use crate::fault::{FileFault, unread};
use c25_files::{CannotRead, read_bytes};
use c25_meaning_common::failure::Failure;
use c25_meaning_common::placed::Placed;
use std::alloc::Global;

/// The bytes of a file, or that it cannot be read.
fn bytes_of<D: Disk>(alloc: Global, disk: &D, name: &str) -> Result<Vec<u8>, Failure<CannotRead>>
    ensures { IfOk result (λ bytes. IsAllOf (D.bytes_of disk.now name.now) bytes.items) }
{
    match disk.open(name) {
        Ok(reader) => {
            let mut reader = reader;
            read_bytes(alloc, &mut reader)
        }
        Err(DiskFault) => Err(Failure::Fault(CannotRead)),
    }
}

/// Reads the bytes of a file. `CannotRead` (8) where the file cannot be opened or read, or has more than
/// 16,777,216 bytes.
pub fn read_binary<D: Disk>(
    alloc: Global,
    disk: &D,
    name: &str,
) -> Result<Vec<u8>, Failure<Placed<String, FileFault>>>
    ensures bytes { IfOk result (λ bytes. IsAllOf (D.bytes_of disk.now name.now) bytes.items) }
    ensures fault { IfErr result (IsOfFile name.now kind.CannotRead) }
{
    match bytes_of(alloc, disk, name) {
        Ok(bytes) => Ok(bytes),
        Err(failure) => Err(unread(alloc, name, failure)),
    }
}
