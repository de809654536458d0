//! The lines of a source after expansion, each with the words that it makes.

ghost use Rattle.std.specs.Prelude.{◌≡◌, [], ◌∷◌, ◌++◌, IfOk, OnOk, option_map};
ghost use Rattle.c25_line_warnings.specs.View.{line_of, lines_of};
ghost use Rattle.c25_macro.specs.Expander.{shown};
ghost use Rattle.c25_macro.specs.Expanders.{expansion_of};
ghost use Rattle.c25_warnings.specs.Coming.{ComesTo, IsRest, source_of};
ghost use Rattle.c25_warnings.specs.SourceLines as source;

use c25_files::files::Files;
use c25_line_warnings::source_line::SourceLine;
use c25_macro::answer::ExpLine;
use c25_macro::expander::Expander;
use c25_meaning_common::failure::Failure;
use c25_meaning_common::no_memory::NoMemory;
use c25_meaning_common::placed::FileLine;
use c25_phases::{Progress, read_and_pass};
use std::alloc::Global;

/// The lines of a source so far, and what they have made.
#[derive(Drop)]
pub struct SourceLines<'a> {
    pub progress: Box<Progress<'a>>,
    pub lines: Vec<SourceLine<'a>>,
}

/// A line of the source has a fault of the first phase, or expansion ends with one.
#[derive(Clone, Copy, Debug, Drop)]
pub(crate) struct Faulty;

/// Before the first line.
fn no_lines<'a>(alloc: Global) -> Result<SourceLines<'a>, NoMemory>
    ensures { IfOk result (λ a. source_of a ≡ source.no_lines) }
{
    Ok(SourceLines {
        progress: Box::new(alloc, Progress::new(alloc)?)?,
        lines: Vec::new(alloc),
    })
}

/// Appends a line.
fn push_line<'a>(lines: &mut Vec<SourceLine<'a>>, line: SourceLine<'a>) -> Result<(), NoMemory>
    ensures { OnOk result (lines_of lines.new.items ≡ lines_of lines.old.items ++ line_of line.entry ∷ []) }
{
    lines.push(line)?;
    Ok(())
}

/// The lines so far and one more.
fn with_line<'a>(
    passed: SourceLines<'a>,
    given: ExpLine<'a>,
) -> Result<SourceLines<'a>, Failure<Faulty>>
    ensures { ComesTo (source.with_line (shown given.entry) (source_of passed.entry)) result }
{
    let SourceLines { progress, lines } = passed;
    let mut lines = lines;
    let ExpLine { file, line, text } = given;
    let section = progress.current;
    let offset = progress.size_at(section);
    match read_and_pass(progress, FileLine { file, line }, text.as_str()) {
        Ok(progress) => {
            let count = progress.size_at(section).saturating_sub(offset);
            let longer = SourceLine {
                file,
                line,
                text,
                section,
                offset,
                count,
            };
            match push_line(&mut lines, longer) {
                Ok(()) => Ok(SourceLines { progress, lines }),
                Err(error) => Err(Failure::NoMemory(error)),
            }
        }
        Err(Failure::Fault(_)) => Err(Failure::Fault(Faulty)),
        Err(Failure::NoMemory(error)) => Err(Failure::NoMemory(error)),
    }
}

/// The lines so far and all that are left.
fn with_rest<'a>(
    expander: &mut Expander<'a>,
    passed: SourceLines<'a>,
) -> Result<SourceLines<'a>, Failure<Faulty>>
    ensures { IsRest (expansion_of expander.old) (source_of passed.entry) result }
{
    let mut passed = passed;
    loop {
        passed.progress.move_here();
        match expander.next_line(passed.progress.symbols()) {
            Ok(Some(line)) => match with_line(passed, line) {
                Ok(longer) => passed = longer,
                Err(failure) => return Err(failure),
            },
            Ok(None) => return Ok(passed),
            Err(Failure::Fault(_)) => return Err(Failure::Fault(Faulty)),
            Err(Failure::NoMemory(error)) => return Err(Failure::NoMemory(error)),
        }
    }
}

/// All lines of the source of a name, after none.
fn all_lines<'a>(
    alloc: Global,
    files: &'a Files,
    name: &'a str,
    begun: SourceLines<'a>,
) -> Result<SourceLines<'a>, Failure<Faulty>>
    requires { source_of begun ≡ source.no_lines }
    ensures { ComesTo (source.source_lines files.now name.now) result }
{
    let mut expander = Expander::new(alloc, files, name);
    with_rest(&mut expander, begun)
}

/// The lines of the source of a name, or `None` where one has a fault of the first phase.
///
/// `NoMemory` where memory runs out.
pub fn source_lines<'a>(
    alloc: Global,
    files: &'a Files,
    name: &'a str,
) -> Result<Option<SourceLines<'a>>, NoMemory>
    ensures { IfOk result (λ o. option_map source_of o ≡ source.source_lines files.now name.now) }
{
    let begun = no_lines(alloc)?;
    match all_lines(alloc, files, name, begun) {
        Ok(lines) => Ok(Some(lines)),
        Err(Failure::Fault(_)) => Ok(None),
        Err(Failure::NoMemory(error)) => Err(error),
    }
}
