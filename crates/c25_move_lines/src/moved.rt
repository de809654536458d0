//! The rules applied to a line.

ghost use Rattle.std.specs.Prelude.{◌≡◌, false, IfOk, OnOk};
ghost use Rattle.c25_move_lines.specs.Changes.{KeepsUnreported, lines_of};
ghost use Rattle.c25_move_lines.specs.Values.{KeepsAllValues, KeepsLabels};

use crate::around::{Around, Progress};
use crate::change::{Change, settled, unchanged};
use crate::directives::Work;
use crate::job::Job;
use crate::labels::labelled;
use crate::operands::note;
use crate::rule::Rule;
use crate::values::compared;
use c25_meaning_common::no_memory::NoMemory;
use c25_text::line::is_comment_line;
use std::alloc::Global;

/// Whether a line of this work may stand in a dummy section.
fn is_in_dummy(work: Work) -> bool {
    matches!(
        work,
        Work::Reserve
            | Work::ReserveEnd
            | Work::Dummy
            | Work::DummyEnd
            | Work::Origin
            | Work::Program
            | Work::Data
            | Work::Equate
            | Work::Nothing
    )
}

/// What the rules make of a line that has a word.
fn reworked(
    alloc: Global,
    around: &Around<'_>,
    progress: &mut Progress,
    line: &str,
) -> Result<Change, NoMemory>
    ensures { OnOk result (progress.new.blocks ≡ progress.old.blocks) }
{
    let mut job = Job::of(alloc, around, progress, line)?;
    if progress.dummy.is_some() && !is_in_dummy(job.work) {
        note(&mut job.draft.left, Rule::Dummy)?;
    }
    job.change(alloc, around, progress, line)
}

/// What the rules make of a line; one of which no rule reports anything stays.
fn uncompared(
    alloc: Global,
    around: &Around<'_>,
    progress: &mut Progress,
    line: &str,
) -> Result<Change, NoMemory>
    ensures unreported { IfOk result (KeepsUnreported line.now) }
    ensures blocks { OnOk result (progress.new.blocks ≡ progress.old.blocks) }
{
    if is_comment_line(line.as_bytes()) || line.trim().is_empty() {
        return unchanged(alloc, line);
    }
    let change = reworked(alloc, around, progress, line)?;
    settled(alloc, line, change)
}

/// What the rules make of a line, given without its end. A line of which no rule reports anything stays as it is,
/// byte for byte. Unless the line calls a macro, values that were rewritten are the same, and in the early style each
/// value is, or one of the rules that rewrite values is left: `KeepsAllValues` says of which lines; outside of macros a line
/// whose local labels got names says the same too, or that is left (`KeepsLabels`). Only the addresses and the dummy section of
/// `progress` may change. `NoMemory` (9) where memory runs out.
pub fn change_of(
    alloc: Global,
    around: &Around<'_>,
    progress: &mut Progress,
    line: &str,
) -> Result<Change, NoMemory>
    ensures unreported { IfOk result (KeepsUnreported line.now) }
    ensures values { IfOk result (λ c. around.now.is_call ≡ false → KeepsAllValues around.now.style line.now (lines_of c) c.done.items c.left.items) }
    ensures labels { IfOk result (λ c. around.now.is_call ≡ false → around.now.in_body ≡ false → KeepsLabels around.now.style (record { source = around.now.source.now; blocks = progress.old.blocks }) line.now (lines_of c) c.done.items c.left.items) }
    ensures blocks { OnOk result (progress.new.blocks ≡ progress.old.blocks) }
{
    let block = progress.blocks;
    let change = uncompared(alloc, around, progress, line)?;
    let change = compared(alloc, around, line, change)?;
    labelled(alloc, around, block, line, change)
}
