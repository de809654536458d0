//! Tasks over the files of a disk.

ghost use Rattle.c25_inputs.specs.Files.{ComesToBy};

use crate::files::fault_of_copies;
use c25_chain::fault::{ChainFault, Fault};
use c25_disk::disk::Disk;
use c25_disk::with_copies;
use c25_disk::work::Work;
use c25_macro::files::Files;
use std::alloc::Global;

/// Runs a task over these files, and over the files of a disk that it copies, as [`with_copies`] does.
pub fn work_over<D: Disk, W: Work<Fault = ChainFault<String>>>(
    alloc: Global,
    disk: &D,
    files: Files,
    work: &W,
) -> Result<W::Answer, Fault>
    ensures { ComesToBy W.missing_of (D.bytes_of disk.now) files (W.comes_to work.now) result }
{
    match with_copies(alloc, disk, files, work) {
        Ok(answer) => Ok(answer),
        Err(failure) => Err(fault_of_copies(failure)),
    }
}
