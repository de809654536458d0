//! Files that are written once all work is done.

ghost use Rattle.std.specs.Prelude.{IfErr, OnOk, map};
ghost use Rattle.c25_disk.specs.Held.{Adds};
ghost use Rattle.c25_disk.specs.Written.{contents_of, IsUnwritten};

use crate::disk::{Disk, DiskFault};
use crate::fault::{FileFault, fault_of_file};
use c25_meaning_common::failure::Failure;
use c25_meaning_common::placed::Placed;
use std::alloc::Global;

/// A file to be written: its name and all its bytes.
#[derive(Drop)]
pub struct Output<'a> {
    pub name: &'a str,
    pub bytes: Vec<u8>,
}

/// Writes files in order. Stops at the first that cannot be written (7); the files after it are not tried.
#[tactic(auto, using(crate::proofs::Added::adds_none, crate::proofs::Added::adds_more, crate::proofs::Added::adds_all))]
pub fn write_outputs<D: Disk>(
    alloc: Global,
    disk: &mut D,
    outputs: &[Output<'_>],
) -> Result<(), Failure<Placed<String, FileFault>>>
    ensures written { OnOk result (Adds (D.written disk.old) (D.written disk.new) (map contents_of outputs.now)) }
    ensures fault { IfErr result (IsUnwritten (D.written disk.old) (D.written disk.new) outputs.now) }
{
    for output in outputs {
        match disk.write(output.name, &output.bytes) {
            Ok(()) => {}
            Err(DiskFault) => {
                return Err(fault_of_file(alloc, output.name, FileFault::CannotWrite));
            }
        }
    }
    Ok(())
}
