//! The first phase of one line: reading its text, then doing what it says.

ghost use Rattle.std.specs.Prelude.{◌≤◌, IfOk, OnOk};
ghost use Rattle.c25_meaning_common.specs.Results.{Meets};
ghost use Rattle.c25_meaning_assembly.specs.AllFaults.{address_label};
ghost use Rattle.c25_meaning_assembly.specs.Sections.{name_count};
ghost use Rattle.c25_phases.specs.Origins.{origin_of};
ghost use Rattle.c25_phases.specs.Refused.{IsLabelled, IsLeftOut};
ghost use Rattle.c25_phases.specs.Steps.{text_passed};
ghost use Rattle.c25_phases.specs.View.{progress_of};

use crate::progress::Progress;
use c25_meaning_common::failure::Failure;
use c25_meaning_common::placed::FileLine;
use c25_meaning_language::statement::FaultKind;
use c25_statements::read_statement;

/// The first phase of one line: its text is read, and what it says is done. The fault is the first of the
/// text (10 to 13, 50 to 52, 20, 21), or else of what the line does: 52, 20 and 21 of a section, 26, 22 to
/// 25, 56, 54; `NoMemory` where memory runs out. A fault ends the source, so it drops what the lines before
/// have made. The state is boxed, since it is handed on from line to line.
pub fn read_and_pass<'a>(
    progress: Box<Progress<'a>>,
    origin: FileLine<&'a str>,
    text: &str,
) -> Result<Box<Progress<'a>>, Failure<FaultKind>>
    ensures told { Meets (λ p. progress_of p.value) (text_passed (origin_of origin.entry) text.now (progress_of progress.entry.value)) result }
    ensures few { IfOk result (λ p. name_count (progress_of p.value).names (progress_of p.value).declared ≤ 65535) }
{
    let mut progress = progress;
    let statement = read_statement(progress.alloc, text)?;
    progress.pass(origin, statement)?;
    Ok(progress)
}

/// The first phase of one line that is left out if it is refused: what stood before it then stays, with its
/// label, where that can be defined. After `TooLarge` (54) nothing is said of the state.
pub fn pass_or_leave_out<'a>(
    progress: &mut Progress<'a>,
    origin: FileLine<&'a str>,
    text: &str,
) -> Result<(), Failure<FaultKind>>
    ensures told { Meets (λ _. progress_of progress.new) (text_passed (origin_of origin.entry) text.now (progress_of progress.old)) result }
    ensures few { OnOk result (name_count (progress_of progress.new).names (progress_of progress.new).declared ≤ 65535) }
    ensures left { IsLeftOut text.now (progress_of progress.old) result (progress_of progress.new) }
{
    match pass_text(progress, origin, text) {
        Ok(()) => Ok(()),
        Err(Failure::NoMemory(error)) => Err(Failure::NoMemory(error)),
        Err(Failure::Fault(kind)) => match progress.keep_label(text) {
            Ok(()) => Err(Failure::Fault(kind)),
            Err(error) => Err(Failure::NoMemory(error)),
        },
    }
}

/// Reads a line's text, and does what it says.
fn pass_text<'a>(
    progress: &mut Progress<'a>,
    origin: FileLine<&'a str>,
    text: &str,
) -> Result<(), Failure<FaultKind>>
    ensures told { Meets (λ _. progress_of progress.new) (text_passed (origin_of origin.entry) text.now (progress_of progress.old)) result }
    ensures few { OnOk result (name_count (progress_of progress.new).names (progress_of progress.new).declared ≤ 65535) }
    ensures kept { IsLabelled (address_label text.now) (progress_of progress.old) result (progress_of progress.new) }
{
    match read_statement(progress.alloc, text) {
        Ok(statement) => progress.pass(origin, statement),
        Err(failure) => Err(failure),
    }
}
