//! What callers ask of an expander.

ghost use Rattle.std.specs.Prelude.{◌≡◌, ◌<◌, IfOk, IfSome};
ghost use Rattle.std.specs.Option.{option_map};
ghost use Rattle.c25_macro.specs.Expander.{begun, IsNext, IsKept, missing_of, left_of};
ghost use Rattle.c25_macro.specs.Expanders.{expansion_of};
ghost use Rattle.c25_macro.specs.NextLines as next_lines;
ghost use Rattle.c25_macro.specs.NextLines.{IsLighter};

use crate::answer::{ExpLine, ExpandFault, NextLine};
use crate::expander::Expander;
use crate::stage::{Stage, advance};
use crate::stage_leaving_out::advance_or_leave_out;
use c25_expr::symbols::Symbols;
use c25_files::files::Files;
use c25_meaning_common::failure::Failure;
use std::alloc::Global;
use std::mem;

impl<'a> Expander<'a> {
    /// The expansion of the module of a name among these files. It takes no memory; a module that is not
    /// there is reported by the first call of `next_line`.
    pub fn new(alloc: Global, files: &'a Files, name: &'a str) -> Expander<'a>
        ensures { expansion_of result ≡ begun files.now name.now }
    {
        Expander {
            alloc,
            files,
            name,
            stage: Stage::Before,
        }
    }

    /// The next line under the symbols that the lines before it have defined, or None where no line is left.
    /// The first failure ends the expansion: every further call answers the same, and takes no memory.
    ///
    /// Of several faults in one line the first of these is reported: 34 (it is the 200,001st that is read),
    /// 32 (an `.elseif` after the `.else` of its `.if`, or a second `.else` in skipped lines), 38 (it is
    /// longer than 1,024 bytes, or takes more than 1,024 replacements), and where expansion consumes it 10 to
    /// 13, 51, 52, 20, 21, 35, then 22 to 25, then 30, 32, 33, 36. The label of a consumed line is given as a
    /// line of its own after the faults up to 35 of this list and before the others, so that the caller can
    /// define it first.
    #[inline(always)]
    pub fn next_line(
        &mut self,
        symbols: &Symbols,
    ) -> Result<Option<ExpLine<'a>>, Failure<ExpandFault<'a>>>
        ensures next { IsNext (expansion_of self.old) symbols.now result (expansion_of self.new).stage }
        // At most 200,000 lines are given: each is one less that may be read.
        ensures fewer { IfOk result (λ o. IfSome o (λ _. left_of (expansion_of self.new).stage < left_of (expansion_of self.old).stage)) }
        // At most 32 blocks are open.
        ensures kept { IsKept (expansion_of self.new).stage }
        ensures files { (expansion_of self.new).files ≡ (expansion_of self.old).files }
        ensures name { (expansion_of self.new).name ≡ (expansion_of self.old).name }
    {
        let stage = mem::replace(&mut self.stage, Stage::NoModule);
        let (stage, answer) = advance(self.alloc, self.files, self.name, stage, symbols);
        self.stage = stage;
        answer
    }

    /// The next line, as [`Expander::next_line`] gives it, but that a line which is refused is left out, with what
    /// it would open, and the next call goes on after it: up to `.endif` after a refused `.if`, `.elseif` or
    /// `.else`, up to `.endloop` or `.endm` after a refused `.loop` or `.macro`; a refused `.break` leaves its
    /// loop. A failure is the last one, after 31, 33, 34, where the module is not there, or memory runs out:
    /// every further call answers the same.
    pub fn next_or_leave_out(
        &mut self,
        symbols: &Symbols,
    ) -> Result<NextLine<'a>, Failure<ExpandFault<'a>>>
        ensures next { next_lines.IsNext (expansion_of self.old) symbols.now result (expansion_of self.new).stage }
        // Each line that is given or left out leaves less to do.
        ensures lighter { IfOk result (λ next. IsLighter next (expansion_of self.old).stage (expansion_of self.new).stage) }
        ensures kept { IsKept (expansion_of self.new).stage }
        ensures files { (expansion_of self.new).files ≡ (expansion_of self.old).files }
        ensures name { (expansion_of self.new).name ≡ (expansion_of self.old).name }
    {
        let stage = mem::replace(&mut self.stage, Stage::NoModule);
        let (stage, answer) = advance_or_leave_out(
            self.alloc, self.files, self.name, stage, symbols,
        );
        self.stage = stage;
        answer
    }

    /// The name of the file that is not there, after a 30.
    pub fn missing(&self) -> Option<&str>
        ensures { option_map (λ name. name.now) result ≡ missing_of (expansion_of self.now).stage }
    {
        match &self.stage {
            Stage::NoModule => Some(self.name),
            Stage::Missing { name, .. } => Some(name.as_str()),
            _ => None,
        }
    }
}
