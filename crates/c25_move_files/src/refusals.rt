//! Why nothing is moved.

ghost use Rattle.std.specs.Prelude.{◌≡◌, IfOk, string_bytes};
ghost use Rattle.c25_disk.specs.declared.fault.FileFault.TheVariants.{CannotRead};
ghost use Rattle.c25_move_files.specs.Refusals.{IsFaulty, file_line, place_line};
ghost use Rattle.c25_move_files.specs.declared.refusals.Refusal.TheVariants as refusal;

use c25_disk::fault::FileFault;
use c25_meaning_common::no_memory::NoMemory;
use std::alloc::Global;

/// Why nothing is moved.
#[derive(Drop)]
pub enum Refusal {
    /// Something is wrong with the inputs, with the line that reports it.
    Faulty(String),
    /// An argument of an option is none that the option takes, with the line that reports it.
    Misused(String),
    /// Out of memory.
    NoMemory(NoMemory),
}

/// The refusal where memory ran out.
pub(crate) fn short(error: NoMemory) -> Refusal
    ensures { result ≡ refusal.NoMemory error }
{
    Refusal::NoMemory(error)
}

/// A line of a file, as editors read it.
pub(crate) fn place_text(alloc: Global, file: &str, line: usize) -> Result<String, NoMemory>
    ensures { IfOk result (λ text. string_bytes text ≡ place_line file.now line) }
{
    Ok(format!(in alloc; "{file}:{line}")?)
}

/// The refusal for a file's fault.
pub(crate) fn file_refused(alloc: Global, name: &str, fault: FileFault) -> Refusal
    ensures { IsFaulty (λ line. line ≡ file_line name.now fault) result }
{
    let number = fault.number();
    let fault = fault.name();
    match format!(in alloc; "{name}: {number} {fault}") {
        Ok(line) => Refusal::Faulty(line),
        Err(error) => Refusal::NoMemory(NoMemory::from(error)),
    }
}

/// The refusal where a file cannot be read.
pub(crate) fn unread(alloc: Global, name: &str) -> Refusal
    ensures { IsFaulty (λ line. line ≡ file_line name.now CannotRead) result }
{
    file_refused(alloc, name, FileFault::CannotRead)
}
