//! Sources, assembled and linked to be debugged.

ghost use Rattle.std.specs.Option.{option_map};
ghost use Rattle.std.specs.Prelude.{◌≡◌, map, string_bytes};
ghost use Rattle.c25_chain.specs.Chain.{given_of};
ghost use Rattle.c25_inputs.specs.Files.{missing_name};
ghost use Rattle.c25_prompting.specs.Debugged.{LinksSources, MakesDebugged};

use crate::inputs::inputs_in;
use crate::program::Debugged;
use crate::texts::texts_of;
use c25_chain::fault::{ChainFault, Fault};
use c25_chain::modules::Modules;
use c25_chain::{RunTexts, assemble_all, link_modules};
use c25_disk::work::Work;
use c25_inputs::files::missing_name;
use c25_macro::files::Files;
use c25_meaning_common::failure::Failure;
use std::alloc::Global;

/// Assembles the named sources, whose texts are in `files`, and links their modules under the text of a command
/// file. The faults are those of [`build`](c25_chain::build), in their order.
fn link_sources(
    alloc: Global,
    files: &Files,
    sources: &[String],
    command: &str,
) -> Result<Debugged, Fault>
    ensures { LinksSources files.now (map string_bytes sources.now) command.now result }
{
    let Modules { modules, .. } = assemble_all(alloc, files, sources)?;
    let linked = link_modules(alloc, modules.as_slice(), command)?;
    match texts_of(alloc, files) {
        Ok(texts) => Ok(Debugged {
            modules,
            linked,
            texts,
        }),
        Err(error) => Err(Failure::NoMemory(error)),
    }
}

/// Assembles the named sources and links their modules, and reads the samples and the schedule of a run, so that
/// they can be read again for it. The faults are those of [`make_ready`](c25_chain::make_ready), in their order.
fn make_debugged(
    alloc: Global,
    files: &Files,
    sources: &[String],
    texts: RunTexts<'_>,
) -> Result<Debugged, Fault>
    ensures { MakesDebugged (given_of files.now (map string_bytes sources.now) texts.entry.command.now texts.entry.samples.now texts.entry.schedule.now) result }
{
    let debugged = link_sources(alloc, files, sources, texts.command)?;
    match inputs_in(alloc, texts.samples, texts.schedule) {
        Ok(_) => Ok(debugged),
        Err(refusal) => Err(refusal),
    }
}

/// A task over files: sources to debug at the prompt, with the texts of the other files of the run.
#[derive(Clone, Copy)]
pub struct Debugging<'a> {
    pub(crate) sources: &'a [String],
    /// The names of the modules in the session, in the order of the sources.
    pub(crate) shown: &'a [String],
    pub(crate) texts: RunTexts<'a>,
}

impl<'a> Work for Debugging<'a> {
    ghost use Rattle.c25_inputs.specs.Files.{missing_name};
    ghost use Rattle.c25_prompting.specs.Debugged.{MakesDebugged};
    ghost use Rattle.c25_prompting.specs.View.{debugged_of};

    type Answer = Debugged;

    type Fault = ChainFault<String>;

    ghost comes_to = { λ work files result. MakesDebugged (debugged_of files work) result };

    ghost missing_of = { missing_name };

    fn answer(&self, alloc: Global, files: &Files) -> Result<Debugged, Fault> {
        make_debugged(alloc, files, self.sources, self.texts)
    }

    fn missing(fault: &ChainFault<String>) -> Option<&str>
        ensures { option_map (λ name. name.now) result ≡ missing_name fault.now }
    {
        missing_name(fault)
    }
}
