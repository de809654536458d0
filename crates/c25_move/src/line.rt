//! One line of an old source, moved.

ghost use Rattle.std.specs.Prelude.{◌≡◌, false, IfOk, OnOk, map};
ghost use Rattle.c25_move_lines.specs.Values.{KeepsAllValues, KeepsLabels};
ghost use Rattle.c25_move.specs.declared.region.Region.TheVariants.{Outside};
ghost use Rattle.c25_move.specs.Promises.{IsUnchanged, IsUnreported, KeepsPromises, Stays, calls, refused_in};
ghost use Rattle.c25_move.specs.Rewritten.{rewritten_of};

use crate::calls::is_call;
use crate::judged::{refused_in, stays_put};
use crate::moved_line::{LineEnd, MovedLine};
use crate::region::Region;
use c25_meaning_common::no_memory::NoMemory;
use c25_move_lines::{Around, LongOrder, Progress, Style, change_of, unchanged};
use std::alloc::Global;

/// An old source: how it is written, the names of the macros that it and the files with it define, and its text.
#[derive(Clone, Copy)]
pub struct OldSource<'t, 'm> {
    pub style: Style,
    /// The first word of a constant of 32 bits, where that is known.
    pub long_order: Option<LongOrder>,
    pub macros: &'m [&'m str],
    pub text: &'t str,
}

/// How the lines of an old source are moved: how it is written, the names of the macros, and the text in which the rules look for
/// names that they make.
#[derive(Clone, Copy)]
pub(crate) struct Manner<'a> {
    pub style: Style,
    pub long_order: Option<LongOrder>,
    pub macros: &'a [&'a str],
    pub named: &'a str,
}

/// A line of an old source: its text, how it ends, and where it stands.
#[derive(Clone, Copy)]
pub(crate) struct OldLine<'a> {
    pub text: &'a str,
    pub end: LineEnd,
    pub region: Region,
}

/// A line that stays as it is.
fn staying<'a>(alloc: Global, line: OldLine<'a>) -> Result<MovedLine<'a>, NoMemory>
    ensures stays { IfOk result (λ m. Stays (rewritten_of m)) }
    ensures old { IfOk result (λ m. m.old.now ≡ line.entry.text.now) }
    ensures end { IfOk result (λ m. m.end ≡ line.entry.end) }
{
    let change = unchanged(alloc, line.text)?;
    Ok(MovedLine {
        old: line.text,
        end: line.end,
        change,
        refused: Vec::new(alloc),
    })
}

/// Whether a line stands in the body of a macro.
fn is_body(region: Region) -> bool
    ensures { region ≡ Outside → result ≡ false }
{
    match region {
        Region::Body => true,
        _ => false,
    }
}

/// A line that the rules are applied to.
fn changed<'a>(
    alloc: Global,
    manner: &Manner<'_>,
    progress: &mut Progress,
    line: OldLine<'a>,
) -> Result<MovedLine<'a>, NoMemory>
    ensures unreported { IfOk result (λ m. IsUnreported (rewritten_of m) → IsUnchanged (rewritten_of m)) }
    ensures labels { IfOk result (λ m. line.entry.region ≡ Outside → calls (map (λ name. name.now) manner.now.macros.now) (rewritten_of m).old ≡ false → KeepsLabels manner.now.style (record { source = manner.now.named.now; blocks = progress.old.blocks }) (rewritten_of m).old (rewritten_of m).lines (rewritten_of m).done (rewritten_of m).left) }
    ensures blocks { OnOk result (progress.new.blocks ≡ progress.old.blocks) }
    ensures values { IfOk result (λ m. calls (map (λ name. name.now) manner.now.macros.now) (rewritten_of m).old ≡ false → KeepsAllValues manner.now.style (rewritten_of m).old (rewritten_of m).lines (rewritten_of m).done (rewritten_of m).left) }
    ensures refused { IfOk result (λ m. (rewritten_of m).refused ≡ refused_in (map (λ name. name.now) manner.now.macros.now) line.entry.region (rewritten_of m).lines) }
    ensures old { IfOk result (λ m. m.old.now ≡ line.entry.text.now) }
    ensures end { IfOk result (λ m. m.end ≡ line.entry.end) }
{
    let around = Around {
        style: manner.style,
        long_order: manner.long_order,
        source: manner.named,
        in_body: is_body(line.region),
        is_call: is_call(manner.macros, line.text),
    };
    let change = change_of(alloc, &around, progress, line.text)?;
    let refused = refused_in(alloc, manner.macros, line.region, change.lines.as_slice())?;
    Ok(MovedLine {
        old: line.text,
        end: line.end,
        change,
        refused,
    })
}

/// What becomes of a line, with the promises of each line. `NoMemory` (9) where memory runs out.
pub(crate) fn moved_line<'a>(
    alloc: Global,
    manner: &Manner<'_>,
    progress: &mut Progress,
    line: OldLine<'a>,
) -> Result<MovedLine<'a>, NoMemory>
    ensures promises { IfOk result (λ m. KeepsPromises manner.now.style (map (λ name. name.now) manner.now.macros.now) (record { region = line.entry.region; scope = record { source = manner.now.named.now; blocks = progress.old.blocks } }) (rewritten_of m)) }
    ensures blocks { OnOk result (progress.new.blocks ≡ progress.old.blocks) }
    ensures old { IfOk result (λ m. m.old.now ≡ line.entry.text.now) }
    ensures end { IfOk result (λ m. m.end ≡ line.entry.end) }
{
    if stays_put(alloc, manner.style, line.region, line.text)? {
        let moved = staying(alloc, line)?;
        Ok(moved)
    } else {
        let moved = changed(alloc, manner, progress, line)?;
        Ok(moved)
    }
}
