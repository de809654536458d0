//! Programs of sources on a disk, with the text of their symbols.

ghost use Rattle.std.specs.Option.{option_map};
ghost use Rattle.std.specs.Prelude.{◌≡◌, Ok, IfOk, map, string_bytes};
ghost use Rattle.c25_chain.specs.Linked.{places_of};
ghost use Rattle.c25_meaning_linking.specs.Command.{CommandData};
ghost use Rattle.c25_meaning_linking.specs.CommandText.{command_of};
ghost use Rattle.c25_meaning_linking.specs.GoodMap.{ranges_for};
ghost use Rattle.c25_symbols.specs.Text.{symbols_text};
ghost use Rattle.c25_options.specs.Task.{text_of};
ghost use Rattle.c25_inputs.specs.Files.{missing_name, source_names};
ghost use Rattle.c25_tasks.specs.Symbols.{BuildsWithSymbols, BuildsWithSymbolsFrom};

use c25_chain::built::Built;
use c25_chain::fault::{ChainFault, Fault};
use c25_chain::linked::Linked;
use c25_chain::modules::Modules;
use c25_chain::{assemble_all, link_modules};
use c25_cmd::read_command;
use c25_disk::disk::Disk;
use c25_disk::work::Work;
use c25_inputs::files::missing_name;
use c25_inputs::sources::{Inputs, Sources, command_alone, inputs_of};
use c25_inputs::work::work_over;
use c25_macro::files::Files;
use c25_meaning_common::failure::Failure;
use c25_meaning_common::no_memory::NoMemory;
use c25_module::Module;
use c25_symbols::write_symbols;
use std::alloc::Global;

/// A linked program with its texts, and the text of its symbols.
#[derive(Drop)]
pub(crate) struct BuiltWithSymbols {
    pub(crate) built: Built,
    pub(crate) symbols: String,
}

/// The text of the symbols of modules of these names that were linked under the text of a command file.
fn symbols_of(
    alloc: Global,
    modules: &[Module],
    shown: &[String],
    linked: &Linked,
    command: &str,
) -> Result<String, NoMemory>
    requires { (read : CommandData) × (command_of command.now ≡ Ok read) }
    ensures { (read : CommandData) → command_of command.now ≡ Ok read
        → IfOk result (λ text. string_bytes text ≡ symbols_text modules.now (map string_bytes shown.now) (places_of linked.now.image.described) (ranges_for read)) }
{
    match read_command(alloc, command) {
        Ok(command) => write_symbols(alloc, modules, shown, linked.image.map(), &command),
        Err(Failure::NoMemory(error)) => Err(error),
        Err(Failure::Fault(_)) => unreachable!(),
    }
}

/// Assembles the named sources, whose texts are in `files`, links their modules under the text of a command
/// file, and writes their symbols, in which the modules have the names `shown`. The faults are those of
/// [`build`](c25_chain::build).
fn build_with_symbols(
    alloc: Global,
    files: &Files,
    sources: &[String],
    shown: &[String],
    command: &str,
) -> Result<BuiltWithSymbols, Fault>
    ensures { BuildsWithSymbols files.now (map string_bytes sources.now) (map string_bytes shown.now) command.now result }
{
    let Modules { modules, listings } = assemble_all(alloc, files, sources)?;
    let linked = link_modules(alloc, modules.as_slice(), command)?;
    let symbols = symbols_of(alloc, modules.as_slice(), shown, &linked, command)?;
    let built = Built { linked, listings };
    Ok(BuiltWithSymbols { built, symbols })
}

/// A task over files: sources to link under the text of a command file, and to write the symbols of.
#[derive(Clone, Copy)]
struct BuildWithSymbols<'a> {
    sources: &'a [String],
    /// The names of the modules in the text of the symbols.
    shown: &'a [String],
    command: &'a str,
}

impl<'a> Work for BuildWithSymbols<'a> {
    ghost use Rattle.std.specs.Prelude.{map, string_bytes};
    ghost use Rattle.c25_inputs.specs.Files.{missing_name};
    ghost use Rattle.c25_tasks.specs.Symbols.{BuildsWithSymbols};

    type Answer = BuiltWithSymbols;

    type Fault = ChainFault<String>;

    ghost comes_to = { λ work files result. BuildsWithSymbols files (map string_bytes work.sources.now) (map string_bytes work.shown.now) work.command.now result };

    ghost missing_of = { missing_name };

    fn answer(&self, alloc: Global, files: &Files) -> Result<BuiltWithSymbols, Fault> {
        build_with_symbols(alloc, files, self.sources, self.shown, self.command)
    }

    fn missing(fault: &ChainFault<String>) -> Option<&str>
        ensures { option_map (λ name. name.now) result ≡ missing_name fault.now }
    {
        missing_name(fault)
    }
}

/// Reads sources and then the command file, where one is named, and builds their program with its symbols.
pub(crate) fn built_with_symbols<D: Disk>(
    alloc: Global,
    disk: &D,
    sources: Sources<'_>,
    command: Option<&str>,
) -> Result<BuiltWithSymbols, Fault>
    ensures { BuildsWithSymbolsFrom (D.bytes_of disk.now) (source_names sources.entry) (text_of command.entry) result }
{
    let inputs = inputs_of(alloc, disk, sources, command_alone(command))?;
    let Inputs {
        files,
        names,
        shown,
        beside,
    } = inputs;
    let work = BuildWithSymbols {
        sources: names.as_slice(),
        shown: shown.as_slice(),
        command: beside.command.as_str(),
    };
    work_over(alloc, disk, files, &work)
}
