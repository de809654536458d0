//! The answer to steps.

ghost use Rattle.std.specs.Prelude.{◌≡◌, ◌+◌, ◌≤◌, ◌++◌, IsOk, OnOk, string_bytes, string_len};
ghost use Rattle.std.specs.String.{string_capacity};
ghost use Rattle.c25_debug.specs.Told.{end_text};

use crate::answers::line::{MOST_BYTES, left, met, ran, sink};
use arrayvec::ArrayString;
use c25_board::run_to::Halted;
use c25_meaning_common::no_memory::NoMemory;
use std::alloc::Global;

/// The line that says how steps ended.
fn line_of(halted: Halted, steps: u32, pc: u16) -> ArrayString<MOST_BYTES>
    ensures { result.bytes ≡ end_text halted steps pc }
{
    match halted {
        Halted::Ran => ran(steps),
        Halted::Met => met(steps, pc),
        Halted::Left(_, stop) => left(steps, stop),
        Halted::SinkFault(step) => sink(step),
    }
}

/// Appends how steps ended: with the number of steps done in all, with PC where a breakpoint was met, and
/// with the number of the step where the sink refused a word.
pub(crate) fn push_halted(
    text: &mut String,
    halted: Halted,
    steps: u32,
    pc: u16,
) -> Result<(), NoMemory>
    ensures bytes { OnOk result (string_bytes text.new ≡ string_bytes text.old ++ end_text halted steps pc) }
    ensures succeeds { string_len text.old + MOST_BYTES ≤ string_capacity text.old → IsOk result }
{
    let line = line_of(halted, steps, pc);
    text.push_str(line.as_str())?;
    Ok(())
}
