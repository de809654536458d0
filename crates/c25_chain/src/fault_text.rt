//! The line that reports a fault.

ghost use Rattle.std.specs.Prelude.{◌≡◌, ◌++◌, IfOk, codes, string_bytes};
ghost use Rattle.c25_meaning_common.specs.Faults.{numbered, placed_text};
ghost use Rattle.c25_meaning_linking.specs.CommandFaults.{command_text};
ghost use Rattle.c25_hex.specs.Faults.{hex_text};
ghost use Rattle.c25_meaning_language.specs.Faults.{numbered_name};
ghost use Rattle.c25_meaning_objects.specs.Faults.{object_text};
ghost use Rattle.c25_chain.specs.FaultText.{at_file, fault_text, link_line, refusal_text};
ghost use Rattle.c25_chain.specs.Refusal.{refusal_of};

use crate::fault::{ChainFault, Fault};
use c25_disk::fault::FileFault;
use c25_hex::hex_fault::HexFault;
use c25_meaning_common::failure::Failure;
use c25_meaning_common::no_memory::NoMemory;
use c25_meaning_common::placed::Placed;
use c25_meaning_language::statement::FaultKind;
use c25_meaning_linking::command_fault::CommandFault;
use c25_meaning_linking::link_fault::LinkFault;
use c25_meaning_objects::object::ObjectFault;
use c25_meaning_processor::sample::BadSamples;
use c25_meaning_processor::schedule::BadSchedule;
use c25_meaning_processor::script::BadCommand;
use std::alloc::Global;

/// The line of a fault in a line of the text of this name.
fn at_line(
    alloc: Global,
    name: &str,
    line: usize,
    number: u8,
    fault: &str,
) -> Result<String, NoMemory>
    ensures { IfOk result (λ text. string_bytes text ≡ placed_text name.now line (numbered number fault.now)) }
{
    Ok(format!(in alloc; "{name}:{line}: {number} {fault}")?)
}

/// The line of a fault in a line of a source.
fn at_source_line(
    alloc: Global,
    name: &str,
    line: usize,
    fault: FaultKind,
) -> Result<String, NoMemory>
    ensures { IfOk result (λ text. string_bytes text ≡ placed_text name.now line (numbered_name fault)) }
{
    at_line(alloc, name, line, fault.number(), fault.name())
}

/// The line of a fault in the bytes of an object file.
fn at_object(alloc: Global, name: &str, fault: ObjectFault) -> Result<String, NoMemory>
    ensures { IfOk result (λ text. string_bytes text ≡ name.now ++ codes ": " ++ object_text fault) }
{
    let number = fault.number();
    let fault = fault.name();
    Ok(format!(in alloc; "{name}: {number} {fault}")?)
}

/// The line of a fault in a line of the command file.
fn at_command_line(alloc: Global, line: usize, fault: CommandFault) -> Result<String, NoMemory>
    ensures { IfOk result (λ text. string_bytes text ≡ placed_text (codes "command") line (command_text fault)) }
{
    at_line(alloc, "command", line, fault.number(), fault.name())
}

/// The line of a fault of linking.
fn at_link(alloc: Global, name: &str, fault: LinkFault) -> Result<String, NoMemory>
    ensures { IfOk result (λ text. string_bytes text ≡ link_line name.now fault) }
{
    let number = fault.number();
    let fault = fault.name();
    Ok(format!(in alloc; "link:{name}: {number} {fault}")?)
}

/// The line of a fault in a line of a hex text.
fn at_hex_line(alloc: Global, line: usize, fault: HexFault) -> Result<String, NoMemory>
    ensures { IfOk result (λ text. string_bytes text ≡ placed_text (codes "hex") line (hex_text fault)) }
{
    at_line(alloc, "hex", line, fault.number(), fault.name())
}

/// The line of a fault in a line of the schedule.
fn at_schedule_line(alloc: Global, line: usize) -> Result<String, NoMemory>
    ensures { IfOk result (λ text. string_bytes text ≡ placed_text (codes "schedule") line (numbered 90 (codes "BadSchedule"))) }
{
    at_line(
        alloc,
        "schedule",
        line,
        BadSchedule.number(),
        BadSchedule.name(),
    )
}

/// The line of a fault in a line of the samples.
fn at_samples_line(alloc: Global, line: usize) -> Result<String, NoMemory>
    ensures { IfOk result (λ text. string_bytes text ≡ placed_text (codes "samples") line (numbered 91 (codes "BadSamples"))) }
{
    at_line(
        alloc,
        "samples",
        line,
        BadSamples.number(),
        BadSamples.name(),
    )
}

/// The line of a fault in a line of a debugger's script.
fn at_script_line(alloc: Global, line: usize) -> Result<String, NoMemory>
    ensures { IfOk result (λ text. string_bytes text ≡ placed_text (codes "script") line (numbered 95 (codes "BadCommand"))) }
{
    at_line(
        alloc,
        "script",
        line,
        BadCommand.number(),
        BadCommand.name(),
    )
}

/// The line of a fault of a file.
fn at_file(alloc: Global, name: &str, fault: FileFault) -> Result<String, NoMemory>
    ensures { IfOk result (λ text. string_bytes text ≡ at_file name.now fault) }
{
    let number = fault.number();
    let fault = fault.name();
    Ok(format!(in alloc; "{name}: {number} {fault}")?)
}

/// The line of a fault that is not out of memory.
pub fn write_refusal(alloc: Global, refusal: &ChainFault<String>) -> Result<String, NoMemory>
    ensures { IfOk result (λ text. string_bytes text ≡ refusal_text (refusal_of refusal.now)) }
{
    match refusal {
        ChainFault::Source(Placed { place, fault }) => {
            at_source_line(alloc, place.file.as_str(), place.line, *fault)
        }
        ChainFault::NoFile {
            file,
            line,
            name: _,
        } => at_source_line(alloc, file.as_str(), *line, FaultKind::NoFile),
        ChainFault::Object(Placed { place, fault }) => at_object(alloc, place.as_str(), *fault),
        ChainFault::Command(Placed { place, fault }) => at_command_line(alloc, *place, *fault),
        ChainFault::Link(Placed { place, fault }) => at_link(alloc, place.as_str(), *fault),
        ChainFault::Hex(Placed { place, fault }) => at_hex_line(alloc, *place, *fault),
        ChainFault::Schedule { line } => at_schedule_line(alloc, *line),
        ChainFault::Samples { line } => at_samples_line(alloc, *line),
        ChainFault::Script { line } => at_script_line(alloc, *line),
        ChainFault::File(Placed { place, fault }) => at_file(alloc, place.as_str(), *fault),
    }
}

/// The line that reports a fault: its place, a colon, its number and its name, as `a.asm:1: 53 FieldRange`,
/// without a line feed. The place is `FILE:LINE` of a source, `command:LINE`, `hex:LINE`, `samples:LINE`,
/// `schedule:LINE`, `script:LINE`, `link:NAME`, a file's name, or `memory`.
pub fn write_fault(alloc: Global, fault: &Fault) -> Result<String, NoMemory>
    ensures { IfOk result (λ text. string_bytes text ≡ fault_text fault.now) }
{
    match fault {
        Failure::NoMemory(_) => Ok(String::from_str(alloc, "memory: 9 NoMemory")?),
        Failure::Fault(refusal) => write_refusal(alloc, refusal),
    }
}
