//! Lines that are refused: they are left out, and expansion goes on.
//!
//! `ExpanderState` and its other methods: `state.rt` says where they are.

ghost use Rattle.std.specs.Prelude.{◌≡◌, ◌<◌, ◌^◌, [], IfOk, OnOk, Some, None, drop, if◌then◌else◌};
ghost use Rattle.c25_meaning_expansion.specs.Expansion as exp;
ghost use Rattle.c25_meaning_expansion.specs.ExpansionBounds.{IsBounded};
ghost use Rattle.c25_meaning_expansion.specs.ExpansionRuns as runs;
ghost use Rattle.c25_meaning_expansion.specs.ExpansionRules as rule;
ghost use Rattle.c25_meaning_expansion.specs.LeftOut as left;
ghost use Rattle.c25_macro.specs.Acts.{act_of};
ghost use Rattle.c25_macro.specs.Config.{config};
ghost use Rattle.c25_macro.specs.LeavingOut.{FirstLeavingOut, IsLast, IsLeftOut, LeavesOut, OrLeavesOut, StaysBounded, ends_with};
ghost use Rattle.c25_macro.specs.declared.state.Mode.TheVariants as modes;

use crate::act::ExpansionAct;
use crate::directive::directive_in;
use crate::expander_fault::ExpanderFault;
use crate::frames::ExitTarget;
use crate::line::Line;
use crate::state::{ExpanderState, LineResult, Mode, consumed};
use c25_expr::symbols::Symbols;
use c25_files::files::Files;
use c25_meaning_common::failure::Failure;
use c25_meaning_common::no_memory::NoMemory;
use c25_meaning_common::placed::FileLine;
use c25_meaning_expansion::expansion::{Branch, Directive, Phase};
use c25_meaning_language::statement::FaultKind;
use std::mem;

/// Why no line is given, and whether expansion goes on without the line that is refused.
#[derive(Drop)]
pub(crate) struct Refusal {
    pub(crate) fault: ExpanderFault,
    pub(crate) goes_on: bool,
}

impl ExpansionAct<'_> {
    /// The directive of the line that asks for this, where that matters when the line is left out.
    fn directive(&self) -> Option<Directive>
        ensures { result ≡ left.directive_by (act_of self.now) }
    {
        match self {
            ExpansionAct::If(_) => Some(Directive::If),
            ExpansionAct::ElseIf(_) => Some(Directive::ElseIf),
            ExpansionAct::Else => Some(Directive::Else),
            ExpansionAct::EndIf => Some(Directive::EndIf),
            ExpansionAct::Define { .. } => Some(Directive::Macro),
            ExpansionAct::Loop(_) => Some(Directive::Loop),
            ExpansionAct::Break(_) => Some(Directive::Break),
            _ => None,
        }
    }
}

/// Whether nothing is read after this fault.
fn ends_reading(fault: &ExpanderFault) -> bool
    ensures { result ≡ ends_with fault.now }
{
    match fault {
        ExpanderFault::Faulty { kind, .. } => match kind {
            FaultKind::OpenBlock | FaultKind::Depth | FaultKind::Lines => true,
            _ => false,
        },
        ExpanderFault::Missing { .. } => false,
    }
}

/// An `.if` in this phase whose lines are passed over from here on, if they were not after its `.else`.
fn passed_over(branch: Branch) -> Branch
    ensures { result ≡ left.passed_over branch branch.phase }
{
    match branch.phase {
        Phase::Seeking | Phase::Taking | Phase::Passing => Branch {
            phase: Phase::Passing,
            ..branch
        },
        Phase::ElseTaking | Phase::ElsePassing => branch,
    }
}

/// The answer of a rewriting after whose fault nothing is read.
fn last<'a>(
    answer: Result<LineResult<'a>, Failure<ExpanderFault>>,
) -> Result<LineResult<'a>, Failure<Refusal>>
    ensures { IsLast answer.entry result }
{
    match answer {
        Ok(given) => Ok(given),
        Err(Failure::NoMemory(error)) => Err(Failure::NoMemory(error)),
        Err(Failure::Fault(fault)) => Err(Failure::Fault(Refusal {
            fault,
            goes_on: false,
        })),
    }
}

impl<'a> ExpanderState<'a> {
    /// Opens an `.if` whose lines are passed over, unless 32 blocks are open. Whether it is opened.
    fn pass_over_if(&mut self) -> Result<bool, NoMemory>
        ensures { IfOk result (IsLeftOut (left.without (Some Directive.If) (config self.old)) (config self.new)) }
    {
        if self.is_full() {
            return Ok(false);
        }
        let branch = Branch {
            phase: Phase::Passing,
            nested: 0,
        };
        self.top.frame.branches.push(branch)?;
        Ok(true)
    }

    /// Passes over the innermost `.if` to its end, unless the line is after its `.else`.
    fn pass_over_branch(&mut self) -> Result<(), NoMemory>
        ensures { OnOk result (config self.new ≡ exp.with_branches (left.innermost_passed_over (config self.old).frame.branches) (config self.old)) }
    {
        let branches = &mut self.top.frame.branches;
        match branches.innermost() {
            Some(branch) => branches.replace(passed_over(branch)),
            None => Ok(()),
        }
    }

    /// Collects the lines of a loop of no turns, unless 32 blocks are open. Whether they are collected.
    fn pass_over_loop(&mut self) -> bool
        ensures { IsLeftOut (left.without (Some Directive.Loop) (config self.old)) (config self.new) result }
    {
        if self.is_full() {
            return false;
        }
        self.top.lines.mark();
        self.look(Mode::InLoop {
            turns: 0,
            nested: 0,
        });
        true
    }

    /// Collects the lines of a macro without a name, which no line calls.
    fn pass_over_macro(&mut self)
        ensures { config self.new ≡ record (config self.old) { mode = exp.InMacro [] [] [] 0 } }
    {
        let alloc = self.alloc;
        self.top.lines.mark();
        self.look(Mode::InMacro {
            name: String::new(alloc),
            parameters: Vec::new(alloc),
            nested: 0,
        });
    }

    /// Leaves out a line with this directive, or none, that was read and is refused, with what it would open.
    /// Whether expansion goes on.
    fn leave_out(&mut self, directive: Option<Directive>) -> Result<bool, NoMemory>
        ensures { IfOk result (IsLeftOut (left.without directive (record (config self.old) { mode = exp.Reading })) (config self.new)) }
    {
        self.look(Mode::Reading);
        match directive {
            Some(Directive::If) => return self.pass_over_if(),
            Some(Directive::ElseIf | Directive::Else) => self.pass_over_branch()?,
            Some(Directive::EndIf) => mem::drop(self.top.frame.branches.pop()),
            Some(Directive::Loop) => return Ok(self.pass_over_loop()),
            Some(Directive::Macro) => self.pass_over_macro(),
            // Where no loop is open, nothing is left.
            Some(Directive::Break) => _ = self.leave(ExitTarget::Turn),
            _ => {}
        }
        Ok(true)
    }

    /// The answer of a part of a rewriting of a line with this directive, or none; where the line is refused, it
    /// is left out.
    fn or_leave_out(
        &mut self,
        directive: Option<Directive>,
        answer: Result<LineResult<'a>, Failure<ExpanderFault>>,
    ) -> Result<LineResult<'a>, Failure<Refusal>>
        ensures { OrLeavesOut directive answer.entry (config self.old) result (config self.new) }
    {
        match answer {
            Ok(given) => Ok(given),
            Err(Failure::NoMemory(error)) => Err(Failure::NoMemory(error)),
            Err(Failure::Fault(fault)) => {
                let goes_on = !ends_reading(&fault) && self.leave_out(directive)?;
                Err(Failure::Fault(Refusal { fault, goes_on }))
            }
        }
    }

    /// Reads the next line and does what it asks for, or else ends the innermost file, expansion or turn; a
    /// line that is refused is left out.
    fn read_or_leave_out(
        &mut self,
        files: &'a Files,
        symbols: &Symbols,
    ) -> Result<LineResult<'a>, Failure<Refusal>>
        requires bounded { IsBounded (config self.old) }
        requires reading { self.old.mode ≡ modes.Reading }
        ensures { LeavesOut (runs.rewrite files.now symbols.now (config self.old)) (config self.old) result (config self.new) }
    {
        match self.next_row() {
            Ok(Some(row)) => {
                let directive = directive_in(row.text());
                let answer = self.read_line(files, symbols, row);
                self.or_leave_out(directive, answer)
            }
            Ok(None) => last(self.end_source()),
            Err(failure) => last(Err(failure)),
        }
    }

    /// Acts on a line whose label was given; one that is refused is left out.
    fn act_or_leave_out(
        &mut self,
        files: &'a Files,
        symbols: &Symbols,
        place: FileLine<usize>,
        act: ExpansionAct<'a>,
    ) -> Result<LineResult<'a>, Failure<Refusal>>
        requires expansions { (config self.old).names.count < 2 ^ 31 }
        requires reading { self.old.mode ≡ modes.Reading }
        ensures { LeavesOut (rule.acts files.now symbols.now place (act_of act.entry) (config self.old)) (record (config self.old) { mode = exp.Acting place (act_of act.entry) }) result (config self.new) }
    {
        let directive = act.directive();
        let answer = consumed(self.act(files, symbols, place, act));
        self.or_leave_out(directive, answer)
    }

    /// Does one rewriting; a line that is refused is left out.
    fn step_or_leave_out(
        &mut self,
        files: &'a Files,
        symbols: &Symbols,
    ) -> Result<LineResult<'a>, Failure<Refusal>>
        requires { IsBounded (config self.old) }
        ensures { LeavesOut (runs.rewrite files.now symbols.now (config self.old)) (config self.old) result (config self.new) }
    {
        match mem::replace(&mut self.mode, Mode::Reading) {
            Mode::Reading => self.read_or_leave_out(files, symbols),
            Mode::Acting { place, act } => self.act_or_leave_out(files, symbols, place, act),
            Mode::InMacro {
                name,
                parameters,
                nested,
            } => last(self.read_into_macro(name, parameters, nested)),
            Mode::InLoop { turns, nested } => last(self.read_into_loop(turns, nested)),
        }
    }

    /// The next line, or None where no line is left; a line that is refused is left out.
    pub(crate) fn next_or_leave_out(
        &mut self,
        files: &'a Files,
        symbols: &Symbols,
    ) -> Result<Option<Line<'a>>, Failure<Refusal>>
        requires { IsBounded (config self.old) }
        ensures bounded { StaysBounded result (config self.new) }
        ensures answer { FirstLeavingOut (runs.first files.now symbols.now (config self.old)) (left.stopped files.now symbols.now (config self.old)) result (config self.new) }
    {
        loop {
            match self.step_or_leave_out(files, symbols) {
                Ok(LineResult::Given(row)) => return Ok(Some(row)),
                Ok(LineResult::Finished) => return Ok(None),
                Ok(LineResult::Consumed) => {}
                Err(failure) => return Err(failure),
            }
        }
    }
}
