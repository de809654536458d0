//! The faults of the lines that take a line's place.

ghost use Rattle.std.specs.Prelude.{◌≡◌, ◌++◌, IfOk, OnOk, is_some, map, not, option_to_list, string_bytes};
ghost use Rattle.c25_move.specs.Promises.{fault_reported, is_judged, refused_in, stays_put};
ghost use Rattle.c25_line_faults.specs.Reading.{fault_in};

use crate::calls::is_call;
use crate::region::Region;
use c25_line_faults::fault_in;
use c25_meaning_common::no_memory::NoMemory;
use c25_meaning_language::statement::FaultKind;
use c25_move_lines::Style;
use std::alloc::Global;

/// Whether a line that stands here is judged by itself.
fn is_judged(macros: &[&str], region: Region, line: &str) -> bool
    ensures { result ≡ is_judged (map (λ name. name.now) macros.now) region line.now }
{
    match region {
        Region::Outside => !is_call(macros, line),
        Region::Body => false,
        Region::Behind => false,
    }
}

/// The fault of a line that is judged by itself and is not read.
fn fault_reported(
    alloc: Global,
    macros: &[&str],
    region: Region,
    line: &str,
) -> Result<Option<FaultKind>, NoMemory>
    ensures { IfOk result (λ f. f ≡ fault_reported (map (λ name. name.now) macros.now) region line.now) }
{
    if is_judged(macros, region, line) {
        fault_in(alloc, line)
    } else {
        Ok(None)
    }
}

/// Adds the fault of a line, if it is reported.
fn push_fault(
    alloc: Global,
    macros: &[&str],
    region: Region,
    line: &str,
    faults: &mut Vec<FaultKind>,
) -> Result<(), NoMemory>
    ensures { OnOk result (faults.new.items ≡ faults.old.items ++ option_to_list (fault_reported (map (λ name. name.now) macros.now) region line.now)) }
{
    match fault_reported(alloc, macros, region, line)? {
        Some(fault) => faults.push(fault).map_err(NoMemory::from),
        None => Ok(()),
    }
}

/// The faults of the lines that take a line's place.
pub(crate) fn refused_in(
    alloc: Global,
    macros: &[&str],
    region: Region,
    lines: &[String],
) -> Result<Vec<FaultKind>, NoMemory>
    ensures { IfOk result (λ faults. faults.items ≡ refused_in (map (λ name. name.now) macros.now) region (map string_bytes lines.now)) }
{
    let mut faults = Vec::new(alloc);
    for line in lines {
        push_fault(alloc, macros, region, line.as_str(), &mut faults)?;
    }
    Ok(faults)
}

/// Whether the assembler reads a line.
fn is_read(alloc: Global, line: &str) -> Result<bool, NoMemory>
    ensures { IfOk result (λ b. b ≡ not (is_some (fault_in line.now))) }
{
    match fault_in(alloc, line) {
        Ok(fault) => Ok(fault.is_none()),
        Err(error) => Err(error),
    }
}

/// Whether a line stays whatever the rules would make of it.
pub(crate) fn stays_put(
    alloc: Global,
    style: Style,
    region: Region,
    line: &str,
) -> Result<bool, NoMemory>
    ensures { IfOk result (λ b. b ≡ stays_put style region line.now) }
{
    match (region, style) {
        (Region::Behind, _) => Ok(true),
        (_, Style::Coff) => is_read(alloc, line),
        (_, Style::Early) => Ok(false),
    }
}
