//! Conditional lines: `.if`, `.elseif`, `.else`, `.endif`.
//!
//! `ExpanderState` and its other methods: `state.rt` says where they are.

ghost use Rattle.std.specs.Prelude.{◌≡◌};
ghost use Rattle.c25_meaning_expansion.specs.ExpansionRules as rule;
ghost use Rattle.c25_expr.specs.View.{tree_of};
ghost use Rattle.c25_macro.specs.Config.{config, GoesOn, Keeps};
ghost use Rattle.c25_macro.specs.SourceFrames.{other_branches};

use crate::expander_fault::{ExpanderFault, fault};
use crate::state::ExpanderState;
use crate::values::{is_zero, number};
use c25_expr::symbols::Symbols;
use c25_expr::tree::Expr;
use c25_meaning_common::failure::Failure;
use c25_meaning_common::placed::FileLine;
use c25_meaning_expansion::expansion::{Branch, Phase};
use c25_meaning_language::statement::FaultKind;

/// Whether an `.if` in this phase takes its lines.
pub(crate) fn takes_lines(phase: Phase) -> bool
    ensures { result ≡ rule.takes_lines phase }
{
    match phase {
        Phase::Taking | Phase::ElseTaking => true,
        Phase::Seeking | Phase::Passing | Phase::ElsePassing => false,
    }
}

/// The phase after a condition with this number: 0 does not hold.
fn phase_of(number: i32) -> Phase
    ensures { result ≡ rule.phase_of number }
{
    if is_zero(number) {
        Phase::Seeking
    } else {
        Phase::Taking
    }
}

impl ExpanderState<'_> {
    /// Does `.if`: opens one, whose lines are taken where the condition is not 0. The faults are those of the
    /// condition (22 to 25), then `Depth` (33) where 32 blocks are open.
    #[tactic(auto, unfolding(c25_meaning_expansion::specs::ExpansionRules::begins_if))]
    pub(crate) fn begin_if(
        &mut self,
        symbols: &Symbols,
        place: FileLine<usize>,
        condition: Expr,
    ) -> Result<(), Failure<ExpanderFault>>
        ensures answer { GoesOn (rule.begins_if symbols.now place (tree_of condition) (config self.old)) result (config self.new) }
        ensures kept { Keeps result (config self.old) (config self.new) }
    {
        let number = match number(symbols, condition) {
            Ok(number) => number,
            Err(kind) => return Err(fault(kind, place)),
        };
        if self.is_full() {
            return Err(fault(FaultKind::Depth, place));
        }
        let branch = Branch {
            phase: phase_of(number),
            nested: 0,
        };
        let branches = &mut self.top.frame.branches;
        branches.push(branch).map_err(Failure::NoMemory)
    }

    /// Lets the innermost `.if` go on in this phase.
    pub(crate) fn enter(
        &mut self,
        branch: Branch,
        phase: Phase,
    ) -> Result<(), Failure<ExpanderFault>>
        ensures answer { GoesOn (rule.enters branch (other_branches (config self.old).frame.branches) (config self.old) phase) result (config self.new) }
        ensures kept { Keeps result (config self.old) (config self.new) }
    {
        let branches = &mut self.top.frame.branches;
        branches
            .replace(Branch { phase, ..branch })
            .map_err(Failure::NoMemory)
    }

    /// Does `.elseif` where no condition has held so far, given the value of its condition or the fault of
    /// that.
    fn seek(
        &mut self,
        place: FileLine<usize>,
        number: Result<i32, FaultKind>,
        branch: Branch,
    ) -> Result<(), Failure<ExpanderFault>>
        ensures answer { GoesOn (rule.with_number place number (λ number. rule.enters branch (other_branches (config self.old).frame.branches) (config self.old) (rule.phase_of number))) result (config self.new) }
        ensures kept { Keeps result (config self.old) (config self.new) }
    {
        match number {
            Ok(number) => self.enter(branch, phase_of(number)),
            Err(kind) => Err(fault(kind, place)),
        }
    }

    /// Does `.elseif`: its lines are taken where no condition has held so far and its own is not 0.
    /// `StrayEnd` (32) where no `.if` is open, or after an `.else`.
    pub(crate) fn elseif(
        &mut self,
        symbols: &Symbols,
        place: FileLine<usize>,
        condition: Expr,
    ) -> Result<(), Failure<ExpanderFault>>
        ensures answer { GoesOn (rule.elseif_by symbols.now place (tree_of condition) (config self.old).frame.branches (config self.old)) result (config self.new) }
        ensures kept { Keeps result (config self.old) (config self.new) }
    {
        // A fault of the condition is reported only where no condition has held so far, or where no `.if` is
        // open.
        let number = number(symbols, condition);
        let Some(branch) = self.top.frame.branches.innermost() else {
            return match number {
                Ok(_) => Err(fault(FaultKind::StrayEnd, place)),
                Err(kind) => Err(fault(kind, place)),
            };
        };
        match branch.phase {
            Phase::Seeking => self.seek(place, number, branch),
            Phase::Taking | Phase::Passing => self.enter(branch, Phase::Passing),
            Phase::ElseTaking | Phase::ElsePassing => Err(fault(FaultKind::StrayEnd, place)),
        }
    }

    /// Does `.else`: its lines are taken where no condition has held. `StrayEnd` (32) where no `.if` is open,
    /// or after another `.else`.
    pub(crate) fn pass_else(&mut self, place: FileLine<usize>) -> Result<(), Failure<ExpanderFault>>
        ensures answer { GoesOn (rule.else_by place (config self.old).frame.branches (config self.old)) result (config self.new) }
        ensures kept { Keeps result (config self.old) (config self.new) }
    {
        let Some(branch) = self.top.frame.branches.innermost() else {
            return Err(fault(FaultKind::StrayEnd, place));
        };
        match branch.phase {
            Phase::Seeking => self.enter(branch, Phase::ElseTaking),
            Phase::Taking | Phase::Passing => self.enter(branch, Phase::ElsePassing),
            Phase::ElseTaking | Phase::ElsePassing => Err(fault(FaultKind::StrayEnd, place)),
        }
    }

    /// Does `.endif`: closes the innermost `.if`. `StrayEnd` (32) where none is open.
    pub(crate) fn end_if(&mut self, place: FileLine<usize>) -> Result<(), Failure<ExpanderFault>>
        ensures answer { GoesOn (rule.endif_by place (config self.old).frame.branches (config self.old)) result (config self.new) }
        ensures kept { Keeps result (config self.old) (config self.new) }
    {
        match self.top.frame.branches.pop() {
            Some(_) => Ok(()),
            None => Err(fault(FaultKind::StrayEnd, place)),
        }
    }
}
