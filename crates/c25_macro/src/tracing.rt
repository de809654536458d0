//! Expansion, one rewriting after another, with its trail.

ghost use Rattle.std.specs.Prelude.{◌≡◌, ◌∷◌, ◌-◌, [], IfOk, OnErr, OnOk, Some, drop, length, nat_lt, reverse, if◌then◌else◌};
ghost use Rattle.c25_meaning_expansion.specs.ExpansionAnswers.{fault_by};
ghost use Rattle.c25_meaning_expansion.specs.ExpansionBounds.{IsBounded};
ghost use Rattle.c25_meaning_expansion.specs.Trail.{line_of, next_place};
ghost use Rattle.c25_macro.specs.Config.{config, refused_by};
ghost use Rattle.c25_macro.specs.Tracers.{Begins, IsToldAs, Shows, Steps, fault_in, trace_of};

use crate::expander_fault::ExpanderFault;
use crate::stage::show;
use crate::state::{ExpanderState, LineResult, Mode};
use crate::tracer::{Step, StepFault, Tracer};
use c25_expr::symbols::Symbols;
use c25_files::files::Files;
use c25_meaning_common::failure::Failure;
use c25_meaning_common::no_memory::NoMemory;
use c25_meaning_common::placed::{FileLine, Placed};
use std::alloc::Global;

impl ExpanderState<'_> {
    /// The place of the next line, or of the last one where the source ends.
    fn next_place(&self) -> FileLine<usize>
        ensures { result ≡ next_place (config self.now).lines (config self.now).frame.last }
    {
        match self.top.lines.next_place() {
            Some(place) => place,
            None => self.top.frame.last,
        }
    }

    /// The place of the line that the next rewriting is about.
    fn line(&self) -> FileLine<usize>
        ensures { result ≡ line_of (config self.now) }
    {
        match &self.mode {
            Mode::Acting { place, .. } => *place,
            Mode::Reading => self.next_place(),
            Mode::InMacro { .. } => self.next_place(),
            Mode::InLoop { .. } => self.next_place(),
        }
    }
}

/// The fault that reports a refusal, with the name of the line's file.
pub(crate) fn told(files: &Files, refusal: ExpanderFault) -> StepFault<'_>
    ensures { fault_by files.now (refused_by refusal) ≡ Some (fault_in result) }
{
    match refusal {
        ExpanderFault::Faulty { place, kind } => {
            let place = FileLine {
                file: files.name(place.file),
                line: place.line,
            };
            StepFault::Faulty(Placed { place, fault: kind })
        }
        ExpanderFault::Missing { place, name } => {
            let file = files.name(place.file);
            let line = place.line;
            StepFault::Missing { file, line, name }
        }
    }
}

/// The failure that reports a refusal, or that memory ran out, with the name of the line's file.
fn told_failure(files: &Files, failure: Failure<ExpanderFault>) -> Failure<StepFault<'_>>
    ensures { IsToldAs files.now failure result }
{
    match failure {
        Failure::NoMemory(error) => Failure::NoMemory(error),
        Failure::Fault(refusal) => Failure::Fault(told(files, refusal)),
    }
}

/// The step that a rewriting gives, with the name of the line's file.
fn shown<'a>(files: &'a Files, progress: LineResult<'a>) -> Step<'a>
    ensures { Shows files.now progress.entry result }
{
    match progress {
        LineResult::Given(given) => Step::Given(show(files, given)),
        LineResult::Consumed => Step::Consumed,
        LineResult::Finished => Step::Finished,
    }
}

/// Brings the trail up to date after a rewriting of this line: `before` and `after` are how many files,
/// expansions and turns were open outside the innermost one.
fn follow(
    trail: &mut Vec<FileLine<usize>>,
    line: FileLine<usize>,
    before: usize,
    after: usize,
) -> Result<(), NoMemory>
    ensures followed { OnOk result (reverse trail.new.items ≡ (if nat_lt before after then line ∷ reverse trail.old.items else drop (before - after) (reverse trail.old.items))) }
    ensures kept { OnErr result (trail.new.items ≡ trail.old.items) }
{
    if before < after {
        return trail.push(line).map_err(NoMemory::from);
    }
    let left = trail.len().saturating_sub(before - after);
    trail.truncate(left);
    Ok(())
}

impl<'a> Tracer<'a> {
    /// A tracer before the first line of the module of a name. None where there is no such module.
    pub fn new(alloc: Global, files: &'a Files, name: &str) -> Result<Option<Tracer<'a>>, NoMemory>
        ensures { IfOk result (Begins files.now name.now) }
    {
        let Some((file, text)) = files.find(name) else {
            return Ok(None);
        };
        let state = Box::new(alloc, ExpanderState::new(alloc, file, text))?;
        let trail = Vec::new(alloc);
        Ok(Some(Tracer {
            files,
            state,
            trail,
        }))
    }

    /// Does one rewriting, under the symbols that the lines before it have defined.
    pub fn step(&mut self, symbols: &Symbols) -> Result<Step<'a>, Failure<StepFault<'a>>>
        requires { IsBounded (trace_of self.old).at }
        ensures { Steps symbols.now (trace_of self.old) result (trace_of self.new) }
    {
        let files = self.files;
        let line = self.state.line();
        let before = self.state.below.len();
        match self.state.step(files, symbols) {
            Ok(progress) => {
                let after = self.state.below.len();
                follow(&mut self.trail, line, before, after)?;
                Ok(shown(files, progress))
            }
            Err(failure) => Err(told_failure(files, failure)),
        }
    }

    /// The places of the lines that opened what is open, the innermost first.
    pub fn into_trail(self) -> Vec<FileLine<usize>>
        ensures { result.items ≡ (trace_of self.entry).trail }
    {
        let mut trail = self.trail;
        trail.reverse();
        trail
    }
}
