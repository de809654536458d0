//! Where an expansion stands, and its next line.

ghost use Rattle.std.specs.Prelude.{◌≡◌};
ghost use Rattle.c25_meaning_expansion.specs.ExpansionAnswers.{expanded_line};
ghost use Rattle.c25_meaning_expansion.specs.ExpansionBounds.{IsBounded};
ghost use Rattle.c25_meaning_expansion.specs.ExpansionRuns.{first, start_of};
ghost use Rattle.c25_macro.specs.Config.{config};
ghost use Rattle.c25_macro.specs.Expander.{shown, begun_at, Comes, IsNextAt, IsKept};
ghost use Rattle.c25_macro.specs.Stages.{stage_of, IsRefused};

use crate::answer::{ExpLine, ExpandFault};
use crate::bounded_state::BoundedState;
use crate::expander_fault::ExpanderFault;
use crate::line::Line;
use crate::state::ExpanderState;
use c25_expr::symbols::Symbols;
use c25_files::files::Files;
use c25_meaning_common::failure::Failure;
use c25_meaning_common::no_memory::NoMemory;
use c25_meaning_common::placed::{FileLine, Placed};
use c25_meaning_language::statement::FaultKind;
use std::alloc::Global;

/// Where an expansion stands.
#[derive(Drop)]
pub(crate) enum Stage<'a> {
    /// Before the first line.
    Before,
    /// After a line was given, or after the end.
    BoundedState(BoundedState<'a>),
    /// The module is not there.
    NoModule,
    /// Memory ran out.
    NoMemory(NoMemory),
    /// A line has a fault.
    Faulty(ExpandFault<'a>),
    /// A line asks for the file with this name, which is not there.
    Missing {
        file: &'a str,
        line: usize,
        name: String,
    },
}

/// The answer of a call for the next line.
type Answer<'a> = Result<Option<ExpLine<'a>>, Failure<ExpandFault<'a>>>;

/// A line with the name of its file.
pub(crate) fn show<'a>(files: &'a Files, given: Line<'a>) -> ExpLine<'a>
    ensures { shown result ≡ expanded_line files.now given.entry }
{
    let FileLine { file, line } = given.place();
    ExpLine {
        file: files.name(file),
        line,
        text: given.into_text(),
    }
}

/// The fault of a line that asks for a file which is not there.
fn no_file(file: &str, line: usize) -> ExpandFault<'_>
    ensures { result ≡ record { place = record { file = file.entry; line = line }; fault = FaultKind.NoFile } }
{
    Placed {
        place: FileLine { file, line },
        fault: FaultKind::NoFile,
    }
}

/// The stage after a refusal, and the answer that reports it.
pub(crate) fn refuse<'a>(
    files: &'a Files,
    name: &'a str,
    failure: Failure<ExpanderFault>,
) -> (Stage<'a>, Answer<'a>)
    ensures { IsRefused files.now name.now failure result.0 result.1 }
{
    match failure {
        Failure::NoMemory(error) => (Stage::NoMemory(error), Err(Failure::NoMemory(error))),
        Failure::Fault(ExpanderFault::Faulty { place, kind }) => {
            let place = FileLine {
                file: files.name(place.file),
                line: place.line,
            };
            let fault = Placed { place, fault: kind };
            (Stage::Faulty(fault), Err(Failure::Fault(fault)))
        }
        Failure::Fault(ExpanderFault::Missing { place, name }) => {
            let file = files.name(place.file);
            let line = place.line;
            (
                Stage::Missing { file, line, name },
                Err(Failure::Fault(no_file(file, line))),
            )
        }
    }
}

/// The next line from this state on, and the stage after it.
fn go_on<'a>(
    files: &'a Files,
    name: &'a str,
    state: Box<ExpanderState<'a>>,
    symbols: &Symbols,
) -> (Stage<'a>, Answer<'a>)
    requires { IsBounded (config state.value) }
    ensures next { Comes files.now (first files.now symbols.now (config state.entry.value)) result.1 (stage_of files.now name.now result.0) }
    ensures kept { IsKept (stage_of files.now name.now result.0) }
{
    let mut state = state;
    match state.next(files, symbols) {
        Ok(Some(given)) => {
            let line = show(files, given);
            (Stage::BoundedState(BoundedState { state }), Ok(Some(line)))
        }
        Ok(None) => (Stage::BoundedState(BoundedState { state }), Ok(None)),
        Err(failure) => refuse(files, name, failure),
    }
}

/// The first line of the module of a name, and the stage after it.
fn begin<'a>(
    alloc: Global,
    files: &'a Files,
    name: &'a str,
    symbols: &Symbols,
) -> (Stage<'a>, Answer<'a>)
    ensures next { IsNextAt files.now name.now (begun_at (start_of files.now name.now)) symbols.now result.1 (stage_of files.now name.now result.0) }
    ensures kept { IsKept (stage_of files.now name.now result.0) }
{
    match files.find(name) {
        Some((file, text)) => match Box::new(alloc, ExpanderState::new(alloc, file, text)) {
            Ok(state) => go_on(files, name, state, symbols),
            Err(error) => refuse(files, name, Failure::NoMemory(NoMemory::from(error))),
        },
        None => (Stage::NoModule, Err(Failure::Fault(no_file(name, 0)))),
    }
}

/// The next line of the module of a name, and the stage after it.
#[inline(always)]
pub(crate) fn advance<'a>(
    alloc: Global,
    files: &'a Files,
    name: &'a str,
    stage: Stage<'a>,
    symbols: &Symbols,
) -> (Stage<'a>, Answer<'a>)
    ensures next { IsNextAt files.now name.now (stage_of files.now name.now stage.entry) symbols.now result.1 (stage_of files.now name.now result.0) }
    ensures kept { IsKept (stage_of files.now name.now result.0) }
{
    match stage {
        Stage::Before => begin(alloc, files, name, symbols),
        Stage::BoundedState(BoundedState { state }) => go_on(files, name, state, symbols),
        Stage::NoModule => (Stage::NoModule, Err(Failure::Fault(no_file(name, 0)))),
        Stage::NoMemory(error) => (Stage::NoMemory(error), Err(Failure::NoMemory(error))),
        Stage::Faulty(fault) => (Stage::Faulty(fault), Err(Failure::Fault(fault))),
        Stage::Missing { file, line, name } => (
            Stage::Missing { file, line, name },
            Err(Failure::Fault(no_file(file, line))),
        ),
    }
}
