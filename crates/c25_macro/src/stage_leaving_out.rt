//! The next line of an expansion that leaves out the lines that it refuses.

ghost use Rattle.std.specs.Prelude.{◌≡◌};
ghost use Rattle.c25_meaning_expansion.specs.ExpansionBounds.{IsBounded};
ghost use Rattle.c25_meaning_expansion.specs.ExpansionRuns.{first, start_of};
ghost use Rattle.c25_meaning_expansion.specs.LeftOut.{first_left_out};
ghost use Rattle.c25_macro.specs.Config.{config};
ghost use Rattle.c25_macro.specs.Expander.{begun_at, IsKept};
ghost use Rattle.c25_macro.specs.NextLines.{Comes, IsNextAt, next_of};
ghost use Rattle.c25_macro.specs.Stages.{stage_of};

use crate::answer::{ExpLine, ExpandFault, NextLine};
use crate::bounded_state::BoundedState;
use crate::leaving_out::Refusal;
use crate::stage::{Stage, advance, refuse, show};
use crate::state::ExpanderState;
use crate::tracing::told;
use c25_expr::symbols::Symbols;
use c25_files::files::Files;
use c25_meaning_common::failure::Failure;
use c25_meaning_common::no_memory::NoMemory;
use std::alloc::Global;

/// The answer of a call for the next line.
type NextAnswer<'a> = Result<NextLine<'a>, Failure<ExpandFault<'a>>>;

/// The answer of a call that leaves no line out.
fn next_of<'a>(answer: Result<Option<ExpLine<'a>>, Failure<ExpandFault<'a>>>) -> NextAnswer<'a>
    ensures { result ≡ next_of answer.entry }
{
    match answer {
        Ok(Some(line)) => Ok(NextLine::Given(line)),
        Ok(None) => Ok(NextLine::Finished),
        Err(failure) => Err(failure),
    }
}

/// The next line from this state on, and the stage after it.
fn go_on<'a>(
    files: &'a Files,
    name: &'a str,
    state: Box<ExpanderState<'a>>,
    symbols: &Symbols,
) -> (Stage<'a>, NextAnswer<'a>)
    requires { IsBounded (config state.value) }
    ensures next { Comes files.now (first files.now symbols.now (config state.entry.value)) (first_left_out files.now symbols.now (config state.entry.value)) result.1 (stage_of files.now name.now result.0) }
    ensures kept { IsKept (stage_of files.now name.now result.0) }
{
    let mut state = state;
    match state.next_or_leave_out(files, symbols) {
        Ok(Some(given)) => {
            let line = NextLine::Given(show(files, given));
            (Stage::BoundedState(BoundedState { state }), Ok(line))
        }
        Ok(None) => {
            let answer = Ok(NextLine::Finished);
            (Stage::BoundedState(BoundedState { state }), answer)
        }
        Err(Failure::Fault(Refusal { fault, goes_on })) if goes_on => {
            let line = NextLine::LeftOut(told(files, fault));
            (Stage::BoundedState(BoundedState { state }), Ok(line))
        }
        Err(Failure::Fault(Refusal { fault, .. })) => {
            let (stage, answer) = refuse(files, name, Failure::Fault(fault));
            (stage, next_of(answer))
        }
        Err(Failure::NoMemory(error)) => {
            let (stage, answer) = refuse(files, name, Failure::NoMemory(error));
            (stage, next_of(answer))
        }
    }
}

/// The first line of the module of a name, and the stage after it.
fn begin<'a>(
    alloc: Global,
    files: &'a Files,
    name: &'a str,
    symbols: &Symbols,
) -> (Stage<'a>, NextAnswer<'a>)
    ensures next { IsNextAt files.now name.now (begun_at (start_of files.now name.now)) symbols.now result.1 (stage_of files.now name.now result.0) }
    ensures kept { IsKept (stage_of files.now name.now result.0) }
{
    let Some((file, text)) = files.find(name) else {
        let (stage, answer) = advance(alloc, files, name, Stage::NoModule, symbols);
        return (stage, next_of(answer));
    };
    match Box::new(alloc, ExpanderState::new(alloc, file, text)) {
        Ok(state) => go_on(files, name, state, symbols),
        Err(error) => {
            let error = NoMemory::from(error);
            (Stage::NoMemory(error), Err(Failure::NoMemory(error)))
        }
    }
}

/// The next line of the module of a name, and the stage after it; a line that is refused is left out.
pub(crate) fn advance_or_leave_out<'a>(
    alloc: Global,
    files: &'a Files,
    name: &'a str,
    stage: Stage<'a>,
    symbols: &Symbols,
) -> (Stage<'a>, NextAnswer<'a>)
    ensures next { IsNextAt files.now name.now (stage_of files.now name.now stage.entry) symbols.now result.1 (stage_of files.now name.now result.0) }
    ensures kept { IsKept (stage_of files.now name.now result.0) }
{
    match stage {
        Stage::Before => begin(alloc, files, name, symbols),
        Stage::BoundedState(BoundedState { state }) => go_on(files, name, state, symbols),
        failed => {
            let (stage, answer) = advance(alloc, files, name, failed, symbols);
            (stage, next_of(answer))
        }
    }
}
