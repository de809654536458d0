//! The EPROMs that `build --rom` writes: what is asked for, and the report of a word that has no place in them.

ghost use Rattle.std.specs.Prelude.{string_bytes};
ghost use Rattle.c25_meaning_common.specs.Digits.{hexadecimal_of};
ghost use Rattle.c25_options.specs.Task.{text_of};
ghost use Rattle.c25_rom.specs.Shape.{shape_of};
ghost use Rattle.c25_tasks.specs.Roms.{IsAsked, IsPastReport, IsRomNote, fill_alone_line, filled, filled_with, no_fill_line, no_size_line, rom_asked, shaped};
ghost use Rattle.c25_tasks.specs.Tells.{IsMisuse};

use c25_explain::fault::AnyFault;
use c25_explain::note::{Shown, explained};
use c25_meaning_common::no_memory::NoMemory;
use c25_options::task::RomOptions;
use c25_report::ending::{Ending, Report};
use c25_rom::fault::PastRom;
use c25_rom::fault_line;
use c25_rom::shape::{RomShape, shape_of};
use c25_texts::hexadecimal_of;
use std::alloc::Global;

/// The word where a program has none, unless `--fill` gives another: that of an erased EPROM.
const ERASED: u16 = 0xffff;

/// The EPROMs that are asked for.
#[derive(Clone, Copy)]
pub(crate) struct RomAsked {
    pub(crate) shape: RomShape,
    /// The word at the addresses where the program has none.
    pub(crate) fill: u16,
}

/// How the program ends where the argument of `--rom` is no size.
fn no_size(alloc: Global, argument: &str) -> Ending
    ensures { IsMisuse (no_size_line argument.now) result }
{
    match format!(in alloc; "c25: --rom {argument} is no size, 1 to 10000 in hexadecimal") {
        Ok(line) => Ending::Misused(line),
        Err(error) => Ending::NoMemory(NoMemory::from(error)),
    }
}

/// How the program ends where the argument of `--fill` is no word.
fn no_fill(alloc: Global, argument: &str) -> Ending
    ensures { IsMisuse (no_fill_line argument.now) result }
{
    match format!(in alloc; "c25: --fill {argument} is no word, 0 to FFFF in hexadecimal") {
        Ok(line) => Ending::Misused(line),
        Err(error) => Ending::NoMemory(NoMemory::from(error)),
    }
}

/// How the program ends where `--fill` stands without `--rom`.
fn fill_alone(alloc: Global, argument: &str) -> Ending
    ensures { IsMisuse (fill_alone_line argument.now) result }
{
    match format!(in alloc; "c25: --fill {argument} stands without --rom SIZE") {
        Ok(line) => Ending::Misused(line),
        Err(error) => Ending::NoMemory(NoMemory::from(error)),
    }
}

/// EPROMs of a shape that are filled with a word, where the argument of `--fill` is one.
fn filled_with(alloc: Global, shape: RomShape, argument: &str) -> Result<RomAsked, Ending>
    ensures { IsAsked (filled_with shape argument.now (hexadecimal_of 1 argument.now)) result }
{
    match hexadecimal_of(1, argument.as_bytes()) {
        Some(fill) => Ok(RomAsked { shape, fill }),
        None => Err(no_fill(alloc, argument)),
    }
}

/// EPROMs of a shape, as if erased where the program has no word, unless `--fill` gives another.
fn filled(alloc: Global, shape: RomShape, fill: Option<&str>) -> Result<RomAsked, Ending>
    ensures { IsAsked (filled shape (text_of fill.entry)) result }
{
    match fill {
        Some(argument) => filled_with(alloc, shape, argument),
        None => Ok(RomAsked {
            shape,
            fill: ERASED,
        }),
    }
}

/// The EPROMs that the argument of `--rom` asks for.
fn shaped(alloc: Global, argument: &str, fill: Option<&str>) -> Result<RomAsked, Ending>
    ensures { IsAsked (shaped argument.now (text_of fill.entry) (shape_of argument.now)) result }
{
    match shape_of(argument.as_bytes()) {
        Some(shape) => filled(alloc, shape, fill),
        None => Err(no_size(alloc, argument)),
    }
}

/// The EPROMs that the arguments of `--rom` and `--fill` ask for, if they do, or how the program ends where something is
/// wrong with these.
pub(crate) fn rom_asked(alloc: Global, options: RomOptions<'_>) -> Result<Option<RomAsked>, Ending>
    ensures { IsAsked (rom_asked (text_of options.entry.size) (text_of options.entry.fill)) result }
{
    match options.size {
        Some(argument) => match shaped(alloc, argument, options.fill) {
            Ok(asked) => Ok(Some(asked)),
            Err(ending) => Err(ending),
        },
        None => match options.fill {
            Some(argument) => Err(fill_alone(alloc, argument)),
            None => Ok(None),
        },
    }
}

/// The note of a word that has no place in the EPROMs: its explanation where that is asked for, unless memory runs
/// out.
fn past_note(alloc: Global, explain: bool) -> String
    ensures { IsRomNote explain (string_bytes result) }
{
    if !explain {
        return String::new(alloc);
    }
    match explained(alloc, AnyFault::Rom, Shown::Nothing, "") {
        Ok(note) => note,
        Err(_) => String::new(alloc),
    }
}

/// The report of a word that has no place in the EPROMs (79), with its explanation where that is asked for.
pub(crate) fn report_past(alloc: Global, past: &PastRom, explain: bool) -> Report
    ensures { IsPastReport explain past.now result.ending (string_bytes result.note) }
{
    match fault_line(alloc, past) {
        Ok(line) => {
            let ending = Ending::Faulty(line);
            let note = past_note(alloc, explain);
            Report { ending, note }
        }
        Err(error) => Report::without_note(alloc, Ending::NoMemory(error)),
    }
}
