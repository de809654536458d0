//! Going through the lines of a source up to the one with which a name gets its value.

ghost use Rattle.std.specs.Option.{option_map, is_some};
ghost use Rattle.std.specs.Prelude.{◌≡◌, IfOk, false};
ghost use Rattle.c25_macro.specs.Expander.{shown};
ghost use Rattle.c25_macro.specs.Tracers.{trace_of};
ghost use Rattle.c25_meaning_assembly.specs.Sections.{is_predefined, stands};
ghost use Rattle.c25_meaning_expansion.specs.ExpansionBounds.{IsBounded};
ghost use Rattle.c25_phases.specs.View.{progress_of};
ghost use Rattle.c25_earlier.specs.FirstLines.{IsFirstLine};
ghost use Rattle.c25_earlier.specs.Walks.{Advances, EndsWalk, Passes};

use c25_files::files::Files;
use c25_macro::answer::ExpLine;
use c25_macro::tracer::{Step, Tracer};
use c25_meaning_common::failure::Failure;
use c25_meaning_common::no_memory::NoMemory;
use c25_meaning_common::placed::FileLine;
use c25_phases::{Progress, read_and_pass};
use std::alloc::Global;

/// What one rewriting leads to.
#[derive(Drop)]
pub(crate) enum Turn<'a> {
    /// The name has no value yet.
    On(Box<Progress<'a>>),
    /// The name gets its value with this line.
    Came(ExpLine<'a>),
    /// The source ends, or a line is refused, and the name has no value.
    Ended,
}

/// Whether a name has a value.
fn has_value(progress: &Progress<'_>, name: &str) -> bool
    ensures { result ≡ stands (progress_of progress.now).names name.now }
{
    progress.symbols().get(name).is_some()
}

/// Passes one line more.
fn pass<'a>(
    progress: Box<Progress<'a>>,
    line: ExpLine<'a>,
    name: &str,
) -> Result<Turn<'a>, NoMemory>
    ensures { IfOk result (Passes (shown line.entry) (progress_of progress.entry.value) name.now) }
{
    let place = FileLine {
        file: line.file,
        line: line.line,
    };
    match read_and_pass(progress, place, line.text.as_str()) {
        Ok(passed) => {
            if has_value(&passed, name) {
                Ok(Turn::Came(line))
            } else {
                Ok(Turn::On(passed))
            }
        }
        Err(Failure::Fault(_)) => Ok(Turn::Ended),
        Err(Failure::NoMemory(error)) => Err(error),
    }
}

/// Makes one rewriting more, and passes the line if it gives one.
fn advance<'a>(
    tracer: &mut Tracer<'a>,
    progress: Box<Progress<'a>>,
    name: &str,
) -> Result<Turn<'a>, NoMemory>
    requires bounded { IsBounded (trace_of tracer.old).at }
    requires before { stands (progress_of progress.value).names name.now ≡ false }
    ensures { IfOk result (Advances (trace_of tracer.old) (progress_of progress.entry.value) name.now (trace_of tracer.new)) }
{
    let mut progress = progress;
    progress.move_here();
    match tracer.step(progress.symbols()) {
        Ok(Step::Consumed) => Ok(Turn::On(progress)),
        Ok(Step::Given(line)) => pass(progress, line, name),
        Ok(Step::Finished) => Ok(Turn::Ended),
        Err(Failure::NoMemory(error)) => Err(error),
        Err(Failure::Fault(_)) => Ok(Turn::Ended),
    }
}

/// Goes through the lines that are left.
fn walk<'a>(
    tracer: &mut Tracer<'a>,
    progress: Box<Progress<'a>>,
    name: &str,
) -> Result<Option<ExpLine<'a>>, NoMemory>
    requires bounded { IsBounded (trace_of tracer.old).at }
    requires before { stands (progress_of progress.value).names name.now ≡ false }
    ensures { IfOk result (λ line. EndsWalk (trace_of tracer.old) (progress_of progress.entry.value) name.now (option_map shown line)) }
{
    let mut progress = progress;
    loop {
        match advance(tracer, progress, name)? {
            Turn::On(passed) => progress = passed,
            Turn::Came(line) => return Ok(Some(line)),
            Turn::Ended => return Ok(None),
        }
    }
}

/// The line of the source with which a name that is not predefined gets its value; `None` where no line before the
/// source's end or its first fault gives it one.
pub(crate) fn first_line<'a>(
    alloc: Global,
    files: &'a Files,
    source: &str,
    name: &str,
) -> Result<Option<ExpLine<'a>>, NoMemory>
    requires { is_predefined name.now ≡ false }
    ensures { IfOk result (λ line. IsFirstLine files.now source.now name.now (option_map shown line)) }
{
    let Some(mut tracer) = Tracer::new(alloc, files, source)? else {
        return Ok(None);
    };
    let progress = Box::new(alloc, Progress::new(alloc)?)?;
    walk(&mut tracer, progress, name)
}
