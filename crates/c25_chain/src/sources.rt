//! Assembling a source, with the chain's faults.

ghost use Rattle.std.specs.Prelude.{◌≡◌, IfOk, string_bytes};
ghost use Rattle.c25_phases.specs.View.{fault_of};
ghost use Rattle.c25_asm.specs.View.{assembled_of};
ghost use Rattle.c25_meaning_common.specs.Results.{MeetsBy};
ghost use Rattle.c25_chain.specs.Refusal.{IsRefusedAs, refusal_of};
ghost use Rattle.c25_chain.specs.Sources.{IsToldAs};
ghost use Rattle.c25_chain.specs.Modules.{asm_refusal, assembled_in, module_in};
ghost use Rattle.c25_chain.specs.declared.fault.ChainFault.TheVariants as refusal;

use crate::fault::{ChainFault, Fault};
use c25_asm::assemble;
use c25_asm::fault::AsmFault;
pub use c25_asm::listing::Listing;
use c25_macro::files::Files;
use c25_meaning_common::failure::Failure;
use c25_meaning_common::no_memory::NoMemory;
use c25_meaning_common::placed::{FileLine, Placed};
use c25_meaning_language::statement::FaultKind;
use c25_module::Module;
use c25_records::{read_module, write_module};
use std::alloc::Global;

/// The fault of a wrong line of a source, unless memory runs out for the file's name.
fn wrong_line(alloc: Global, file: &str, line: usize, fault: FaultKind) -> Fault
    ensures { IsRefusedAs (refusal.Source (record { place = record { file = file.now; line = line }; fault = fault })) result }
{
    match String::from_str(alloc, file) {
        Ok(file) => {
            let place = FileLine { file, line };
            Failure::Fault(ChainFault::Source(Placed { place, fault }))
        }
        Err(error) => Failure::NoMemory(NoMemory::from(error)),
    }
}

/// The fault of a line that copies a file that is not there (30), unless memory runs out for the file's name.
fn no_file(alloc: Global, file: &str, line: usize, name: String) -> Fault
    ensures { IsRefusedAs (refusal.NoFile file.now line (string_bytes name)) result }
{
    match String::from_str(alloc, file) {
        Ok(file) => Failure::Fault(ChainFault::NoFile { file, line, name }),
        Err(error) => Failure::NoMemory(NoMemory::from(error)),
    }
}

/// A fault of the assembler as a fault of the chain.
fn refused(alloc: Global, fault: AsmFault<'_>) -> Fault
    ensures { IsRefusedAs (asm_refusal (fault_of fault.entry)) result }
{
    match fault {
        AsmFault::Line(Placed { place, fault }) => {
            wrong_line(alloc, place.file, place.line, fault)
        }
        AsmFault::NoFile { file, line, name } => no_file(alloc, file, line, name),
    }
}

/// A failure of the assembler as a failure of the chain.
fn failed(alloc: Global, failure: Failure<AsmFault<'_>>) -> Fault
    ensures { IsToldAs failure.entry result }
{
    match failure {
        Failure::NoMemory(error) => error.into(),
        Failure::Fault(fault) => refused(alloc, fault),
    }
}

/// Assembles the source of this name in `files`: its module and its listing. The faults are a wrong line (10
/// to 13, 20 to 26, 31 to 36, 38, 50 to 56), and a file that is not there (30): a copied one, or at line 0
/// the source.
pub fn assemble_source<'a>(
    alloc: Global,
    files: &'a Files,
    name: &'a str,
) -> Result<Listing<'a>, Fault>
    ensures { MeetsBy refusal_of assembled_of (assembled_in files.now name.now) result }
{
    match assemble(alloc, files, name) {
        Ok(listing) => Ok(listing),
        Err(failure) => Err(failed(alloc, failure)),
    }
}

/// Assembles the source of this name in `files` without a listing. The faults are those of
/// [`assemble_source`].
pub fn assemble_module(alloc: Global, files: &Files, name: &str) -> Result<Module, Fault>
    ensures { MeetsBy refusal_of (λ m. m) (module_in files.now name.now) result }
{
    match c25_asm::assemble_module(alloc, files, name) {
        Ok(alone) => Ok(alone),
        Err(failure) => Err(failed(alloc, failure)),
    }
}

/// Writes a module as an object, and reads it back. The answer is that module, since its bytes spell no
/// other.
pub(crate) fn read_back(alloc: Global, object: &Module) -> Result<Module, NoMemory>
    ensures { IfOk result (λ again. again ≡ object.now) }
{
    let _parts = object.parts();
    let bytes = write_module(alloc, object)?;
    match read_module(alloc, bytes.as_slice()) {
        Ok(again) => Ok(again),
        Err(Failure::NoMemory(error)) => Err(error),
        Err(Failure::Fault(_)) => unreachable!(),
    }
}
