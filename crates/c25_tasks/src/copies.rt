//! The calls of the chain as tasks over the files of a disk.

ghost use Rattle.std.specs.Option.{option_map};
ghost use Rattle.std.specs.Prelude.{◌≡◌};
ghost use Rattle.c25_inputs.specs.Files.{missing_name};

use c25_chain::built::Built;
use c25_chain::fault::{ChainFault, Fault};
use c25_chain::ready::Ready;
use c25_chain::{RunTexts, build, debug_chain, make_ready};
use c25_disk::work::Work;
use c25_inputs::files::missing_name;
use c25_macro::files::Files;
use std::alloc::Global;

/// A task over files: sources to assemble and to link under the text of a command file.
#[derive(Clone, Copy)]
pub(crate) struct Build<'a> {
    pub(crate) sources: &'a [String],
    pub(crate) command: &'a str,
}

impl<'a> Work for Build<'a> {
    ghost use Rattle.std.specs.Prelude.{map, string_bytes};
    ghost use Rattle.c25_chain.specs.Built.{Builds};
    ghost use Rattle.c25_inputs.specs.Files.{missing_name};

    type Answer = Built;

    type Fault = ChainFault<String>;

    ghost comes_to = { λ work files result. Builds files (map string_bytes work.sources.now) work.command.now result };

    ghost missing_of = { missing_name };

    fn answer(&self, alloc: Global, files: &Files) -> Result<Built, Fault> {
        build(alloc, files, self.sources, self.command)
    }

    fn missing(fault: &ChainFault<String>) -> Option<&str>
        ensures { option_map (λ name. name.now) result ≡ missing_name fault.now }
    {
        missing_name(fault)
    }
}

/// A task over files: sources to run, with the texts of the other files of the run.
#[derive(Clone, Copy)]
pub(crate) struct Run<'a> {
    pub(crate) sources: &'a [String],
    pub(crate) texts: RunTexts<'a>,
}

impl<'a> Work for Run<'a> {
    ghost use Rattle.c25_chain.specs.Ready.{Readies};
    ghost use Rattle.c25_inputs.specs.Files.{missing_name};
    ghost use Rattle.c25_tasks.specs.View.{readied_of};

    type Answer = Ready;

    type Fault = ChainFault<String>;

    ghost comes_to = { λ work files result. Readies (readied_of files work) result };

    ghost missing_of = { missing_name };

    fn answer(&self, alloc: Global, files: &Files) -> Result<Ready, Fault> {
        make_ready(alloc, files, self.sources, self.texts)
    }

    fn missing(fault: &ChainFault<String>) -> Option<&str>
        ensures { option_map (λ name. name.now) result ≡ missing_name fault.now }
    {
        missing_name(fault)
    }
}

/// A task over files: sources to debug, with the texts of the other files of the run and of the script.
#[derive(Clone, Copy)]
pub(crate) struct Debug<'a> {
    pub(crate) sources: &'a [String],
    pub(crate) texts: RunTexts<'a>,
    pub(crate) script: &'a str,
}

impl<'a> Work for Debug<'a> {
    ghost use Rattle.c25_chain.specs.Debug.{Debugs};
    ghost use Rattle.c25_inputs.specs.Files.{missing_name};
    ghost use Rattle.c25_tasks.specs.View.{debugged_of};

    type Answer = String;

    type Fault = ChainFault<String>;

    ghost comes_to = { λ work files result. Debugs (debugged_of files work) work.script.now result };

    ghost missing_of = { missing_name };

    fn answer(&self, alloc: Global, files: &Files) -> Result<String, Fault> {
        debug_chain(
            alloc,
            files,
            self.sources,
            self.texts.command,
            self.texts.samples,
            self.texts.schedule,
            self.script,
        )
    }

    fn missing(fault: &ChainFault<String>) -> Option<&str>
        ensures { option_map (λ name. name.now) result ≡ missing_name fault.now }
    {
        missing_name(fault)
    }
}
