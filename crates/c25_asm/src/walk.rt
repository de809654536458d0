//! Walking through the lines of a source, one rewriting after another.

ghost use Rattle.std.specs.Cow.{cow_str_bytes};
ghost use Rattle.std.specs.Option.{option_map};
ghost use Rattle.std.specs.Prelude.{◌≡◌, IfOk, if◌then◌else◌, Some, None, false};
ghost use Rattle.c25_meaning_assembly.specs.AllFaults.{is_last_kind};
ghost use Rattle.c25_meaning_assembly.specs.Sections.{table};
ghost use Rattle.c25_meaning_expansion.specs.ExpansionBounds.{IsBounded};
ghost use Rattle.c25_macro.specs.Tracers.{trace_of};
ghost use Rattle.c25_phases.specs.View.{progress_of};
ghost use Rattle.c25_asm.specs.Seen.{seen_of};
ghost use Rattle.c25_asm.specs.Walks.{Advances, EndsWalk, HasFewNames, Passes, has_come};

use crate::seen_line::SeenLine;
use c25_macro::answer::ExpLine;
use c25_macro::tracer::{Step, StepFault, Tracer};
use c25_meaning_common::failure::Failure;
use c25_meaning_common::no_memory::NoMemory;
use c25_meaning_common::placed::{FileLine, Placed};
use c25_meaning_language::statement::FaultKind;
use c25_phases::{Progress, pass_or_leave_out};
use std::borrow::CowStr;

/// How a walk through the lines of a source ends.
#[derive(Drop)]
pub(crate) enum End<'a> {
    /// All lines have passed.
    Passed(Box<Progress<'a>>),
    /// The sought item came with the last line, which has this text.
    Reached(CowStr<'a>),
    /// A line is refused: its fault, and the line as it was read, if it was read.
    Refused(StepFault<'a>, Option<SeenLine<'a>>),
}

/// What one rewriting of a walk leads to.
#[derive(Drop)]
pub(crate) enum Turn<'a> {
    /// The walk goes on after what the lines so far have made.
    On(Box<Progress<'a>>),
    Ended(End<'a>),
}

/// Whether the item of the sought number has come; it has not where no number is sought.
fn has_come(progress: &Progress<'_>, sought: Option<usize>) -> bool
    ensures { result ≡ has_come sought (progress_of progress.now).items }
{
    match sought {
        Some(number) => number < progress.item_count(),
        None => false,
    }
}

/// Whether a line is refused since there is no room for it.
fn lacks_room(kind: FaultKind) -> bool
    ensures { result ≡ is_last_kind kind }
{
    match kind {
        FaultKind::TooLarge => true,
        _ => false,
    }
}

/// A line that the first phase refuses, as it was read, by what the lines so far have made and its label;
/// `None` where there is no room for it (54).
fn seen_line<'a>(
    kind: FaultKind,
    progress: Box<Progress<'a>>,
    text: CowStr<'a>,
) -> Option<SeenLine<'a>>
    ensures { option_map seen_of result ≡ (if is_last_kind kind then None else Some (record { text = cow_str_bytes text.entry; table = table (progress_of progress.entry.value) })) }
{
    if lacks_room(kind) {
        return None;
    }
    let mut progress = progress;
    progress.move_here();
    let symbols = Box::into_inner(progress).into_symbols();
    Some(SeenLine { text, symbols })
}

/// Passes one line more.
fn pass<'a>(
    progress: Box<Progress<'a>>,
    line: ExpLine<'a>,
    sought: Option<usize>,
) -> Result<Turn<'a>, NoMemory>
    ensures { IfOk result (Passes line.entry (progress_of progress.entry.value) sought) }
{
    let ExpLine { file, line, text } = line;
    let place = FileLine { file, line };
    let mut progress = progress;
    match pass_or_leave_out(&mut progress, place, text.as_str()) {
        Ok(()) => {
            if has_come(&progress, sought) {
                Ok(Turn::Ended(End::Reached(text)))
            } else {
                Ok(Turn::On(progress))
            }
        }
        Err(Failure::NoMemory(error)) => Err(error),
        Err(Failure::Fault(kind)) => {
            let fault = StepFault::Faulty(Placed { place, fault: kind });
            let seen = seen_line(kind, progress, text);
            Ok(Turn::Ended(End::Refused(fault, seen)))
        }
    }
}

/// Makes one rewriting more, and passes the line if it gives one.
fn advance<'a>(
    tracer: &mut Tracer<'a>,
    progress: Box<Progress<'a>>,
    sought: Option<usize>,
) -> Result<Turn<'a>, NoMemory>
    requires bounded { IsBounded (trace_of tracer.old).at }
    requires few { HasFewNames (progress_of progress.value) }
    requires before { has_come sought (progress_of progress.value).items ≡ false }
    ensures { IfOk result (Advances (trace_of tracer.old) (progress_of progress.entry.value) sought (trace_of tracer.new)) }
{
    let mut progress = progress;
    progress.move_here();
    match tracer.step(progress.symbols()) {
        Ok(Step::Consumed) => Ok(Turn::On(progress)),
        Ok(Step::Given(line)) => pass(progress, line, sought),
        Ok(Step::Finished) => Ok(Turn::Ended(End::Passed(progress))),
        Err(Failure::NoMemory(error)) => Err(error),
        Err(Failure::Fault(fault)) => Ok(Turn::Ended(End::Refused(fault, None))),
    }
}

/// Walks through the lines that are left. The walk ends early with the line that brings the item of the
/// sought number, if a number is sought.
pub(crate) fn walk<'a>(
    tracer: &mut Tracer<'a>,
    progress: Box<Progress<'a>>,
    sought: Option<usize>,
) -> Result<End<'a>, NoMemory>
    requires bounded { IsBounded (trace_of tracer.old).at }
    requires few { HasFewNames (progress_of progress.value) }
    requires before { has_come sought (progress_of progress.value).items ≡ false }
    ensures { IfOk result (EndsWalk (trace_of tracer.old) (progress_of progress.entry.value) sought (trace_of tracer.new)) }
{
    let mut progress = progress;
    loop {
        match advance(tracer, progress, sought)? {
            Turn::On(passed) => progress = passed,
            Turn::Ended(end) => return Ok(end),
        }
    }
}
