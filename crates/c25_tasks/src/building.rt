//! Programs of sources on a disk.

ghost use Rattle.c25_inputs.specs.Files.{source_names};
ghost use Rattle.c25_options.specs.Task.{text_of};
ghost use Rattle.c25_tasks.specs.Building.{BuildsFrom};

use crate::copies::Build;
use c25_chain::built::Built;
use c25_chain::fault::Fault;
use c25_disk::disk::Disk;
use c25_inputs::sources::{Inputs, Sources, command_alone, inputs_of};
use c25_inputs::work::work_over;
use std::alloc::Global;

/// Reads sources and then the command file, where one is named, and builds their program.
pub(crate) fn built<D: Disk>(
    alloc: Global,
    disk: &D,
    sources: Sources<'_>,
    command: Option<&str>,
) -> Result<Built, Fault>
    ensures { BuildsFrom (D.bytes_of disk.now) (source_names sources.entry) (text_of command.entry) result }
{
    let inputs = inputs_of(alloc, disk, sources, command_alone(command))?;
    let Inputs {
        files,
        names,
        beside,
        ..
    } = inputs;
    let work = Build {
        sources: names.as_slice(),
        command: beside.command.as_str(),
    };
    work_over(alloc, disk, files, &work)
}
