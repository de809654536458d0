//! Sources of a disk, checked.

ghost use Rattle.std.specs.Option.{option_map};
ghost use Rattle.std.specs.Prelude.{◌≡◌};
ghost use Rattle.c25_check.specs.Checking.{ChecksFrom};
ghost use Rattle.c25_inputs.specs.Files.{missing_name, source_names};
ghost use Rattle.c25_options.specs.Task.{text_of};

use crate::check::{Checked, check};
use crate::showing::{Showing, paging_for, showing_for};
use c25_chain::fault::{ChainFault, Fault};
use c25_disk::disk::Disk;
use c25_disk::work::Work;
use c25_inputs::files::missing_name;
use c25_inputs::sources::{Inputs, Sources, command_alone, inputs_of};
use c25_inputs::work::work_over;
use c25_macro::files::Files;
use std::alloc::Global;

/// What is asked for besides warnings.
#[derive(Clone, Copy)]
pub struct Asked {
    /// Whether each warning is explained.
    pub explain: bool,
    /// Whether all that is found of data pages is said.
    pub pages: bool,
}

/// A task over files: sources to check under the text of a command file, and which warnings are shown.
#[derive(Clone, Copy)]
struct Check<'a> {
    sources: &'a [String],
    command: &'a str,
    showing: Showing,
}

impl<'a> Work for Check<'a> {
    ghost use Rattle.std.specs.Prelude.{map, string_bytes};
    ghost use Rattle.c25_check.specs.Checking.{Checks};
    ghost use Rattle.c25_inputs.specs.Files.{missing_name};

    type Answer = Checked;

    type Fault = ChainFault<String>;

    ghost comes_to = { λ work files result. Checks work.showing files (map string_bytes work.sources.now) work.command.now result };

    ghost missing_of = { missing_name };

    fn answer(&self, alloc: Global, files: &Files) -> Result<Checked, Fault> {
        check(alloc, files, self.sources, self.command, self.showing)
    }

    fn missing(fault: &ChainFault<String>) -> Option<&str>
        ensures { option_map (λ name. name.now) result ≡ missing_name fault.now }
    {
        missing_name(fault)
    }
}

/// Reads sources and then the command file, where one is named, and writes the warnings of their program, each on a
/// line, with its explanation after it where that is asked for, but for those of the lines that define symbols in front
/// of the sources. After them stand the warnings of data pages: all where `pages` asks for them, with what was supposed,
/// else those that are certain where a command file is named. The faults are those of files and of building.
pub fn check_sources<D: Disk>(
    alloc: Global,
    disk: &D,
    sources: Sources<'_>,
    command: Option<&str>,
    asked: Asked,
) -> Result<Checked, Fault>
    ensures { ChecksFrom asked.explain asked.pages (D.bytes_of disk.now) (source_names sources.entry) (text_of command.entry) result }
{
    let paging = paging_for(asked.pages, command);
    let showing = showing_for(asked.explain, paging, sources);
    let inputs = inputs_of(alloc, disk, sources, command_alone(command))?;
    let Inputs {
        files,
        names,
        beside,
        ..
    } = inputs;
    let work = Check {
        sources: names.as_slice(),
        command: beside.command.as_str(),
        showing,
    };
    work_over(alloc, disk, files, &work)
}
