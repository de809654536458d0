//! The program of the old sources.

ghost use Rattle.std.specs.Prelude.{◌≡◌, Err, IfErr, IfOk, string_bytes};
ghost use Rattle.c25_hex.specs.Hex.{SpellsWords, bytes_given};
ghost use Rattle.c25_hex.specs.declared.hex_fault.HexFault.{HexFault};
ghost use Rattle.c25_meaning_common.specs.declared.placed.Placed.{Placed};
ghost use Rattle.c25_move_files.specs.Refusals.{IsBadHex, IsFaulty, IsNoProgram, hex_line};
ghost use Rattle.c25_move_files.specs.Task.{IsOldProgram};

use crate::refusals::{Refusal, place_text, short, unread};
use c25_disk::disk::Disk;
use c25_disk::read_file;
use c25_hex::hex_fault::HexFault;
use c25_hex::read_hex;
use c25_meaning_common::failure::Failure;
use c25_meaning_common::no_memory::NoMemory;
use c25_meaning_common::placed::Placed;
use c25_meaning_image::word_map::WordMap;
use std::alloc::Global;

/// The line of a hex text's fault.
fn hex_text(alloc: Global, name: &str, placed: Placed<usize, HexFault>) -> Result<String, NoMemory>
    ensures { IfOk result (λ line. string_bytes line ≡ hex_line name.now placed) }
{
    let place = place_text(alloc, name, placed.place)?;
    let number = placed.fault.number();
    let fault = placed.fault.name();
    Ok(format!(in alloc; "{place}: {number} {fault}")?)
}

/// The refusal for a hex text's fault.
fn hex_refused(alloc: Global, name: &str, placed: Placed<usize, HexFault>) -> Refusal
    ensures { IsFaulty (λ line. line ≡ hex_line name.now placed) result }
{
    match hex_text(alloc, name, placed) {
        Ok(line) => Refusal::Faulty(line),
        Err(error) => Refusal::NoMemory(error),
    }
}

/// The words that a hex text spells. Refused where it has a fault.
fn words_of(alloc: Global, name: &str, text: &str) -> Result<WordMap, Refusal>
    ensures words { IfOk result (λ words. SpellsWords text.now words) }
    ensures refused { IfErr result (IsFaulty (IsBadHex text.now name.now)) }
{
    match read_hex(alloc, text) {
        Ok(words) => Ok(words),
        Err(Failure::NoMemory(error)) => Err(short(error)),
        Err(Failure::Fault(placed)) => Err(hex_refused(alloc, name, placed)),
    }
}

/// Reads the words of a hex text. Refused where it cannot be read (8), and with the fault of its first line that has one
/// (80 to 89).
pub fn old_program<D: Disk>(alloc: Global, disk: &D, name: &str) -> Result<WordMap, Refusal>
    ensures words { IfOk result (λ words. IsOldProgram (D.bytes_of disk.now) name.now words) }
    ensures refused { IfErr result (IsFaulty (IsNoProgram (D.bytes_of disk.now) name.now)) }
{
    match read_file(alloc, disk, name) {
        Ok(text) => words_of(alloc, name, text.as_str()),
        Err(Failure::NoMemory(error)) => Err(short(error)),
        Err(Failure::Fault(_)) => Err(unread(alloc, name)),
    }
}
