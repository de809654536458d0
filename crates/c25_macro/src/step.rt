//! Rewriting the lines still to come until one is given.
//!
//! `ExpanderState` and its other methods: `state.rt` says where they are.

ghost use Rattle.std.specs.Prelude.{◌≡◌, ◌<◌, ◌^◌, [], OnOk};
ghost use Rattle.std.specs.String.{string_bytes};
ghost use Rattle.c25_meaning_expansion.specs.Expansion as exp;
ghost use Rattle.c25_meaning_expansion.specs.ExpansionBounds.{IsBounded};
ghost use Rattle.c25_meaning_expansion.specs.ExpansionRuns as runs;
ghost use Rattle.c25_meaning_expansion.specs.Files as meaning;
ghost use Rattle.c25_meaning_language.specs.Value.{Table};
ghost use Rattle.c25_macro.specs.Acts.{bytes_of_names};
ghost use Rattle.c25_macro.specs.Config.{config, Follows, IsNextRow, Answers};
ghost use Rattle.c25_macro.specs.declared.state.Mode.TheVariants as modes;

use crate::expander_fault::{ExpanderFault, fault};
use crate::frames::Kind;
use crate::line::Line;
use crate::state::{ExpanderState, LineResult, Mode, consumed};
use c25_expr::symbols::Symbols;
use c25_files::Row;
use c25_files::files::Files;
use c25_meaning_common::failure::Failure;
use c25_meaning_language::statement::FaultKind;
use std::mem;

impl<'a> ExpanderState<'a> {
    /// The next line of the innermost file, expansion or turn, if it has one. It counts among the lines that
    /// may be read.
    pub(crate) fn next_row(&mut self) -> Result<Option<Row<'a>>, Failure<ExpanderFault>>
        ensures next { IsNextRow self.old result self.new }
        ensures frame { self.new.top.frame ≡ self.old.top.frame }
        ensures below { self.new.below ≡ self.old.below }
        ensures mode { self.new.mode ≡ self.old.mode }
        ensures names { self.new.names ≡ self.old.names }
    {
        let Some(row) = self.top.lines.next() else {
            return Ok(None);
        };
        if self.left == 0 {
            return Err(fault(FaultKind::Lines, row.place()));
        }
        self.left -= 1;
        Ok(Some(row))
    }

    /// Begins the next turn of a loop, goes back to what stands after the file, expansion or turn that ends
    /// here, or ends the expansion; an `.if` that is still open is fault 31.
    #[inline(always)]
    pub(crate) fn end_source(&mut self) -> Result<LineResult<'a>, Failure<ExpanderFault>>
        requires ended { self.old.top.lines.rest ≡ [] }
        requires reading { self.old.mode ≡ modes.Reading }
        ensures { (files : meaning.Files) (s : Table) → Follows (runs.front files s (config self.old).lines (config self.old)) result (config self.new) }
    {
        if !self.top.frame.branches.is_empty() {
            return Err(fault(FaultKind::OpenBlock, self.top.frame.last));
        }
        if self.below.is_empty() {
            return Ok(LineResult::Finished);
        }
        if let Kind::Turn { body, more } = &self.top.frame.kind
            && *more > 0
            && !body.is_empty()
        {
            let body = body.copy();
            let more = *more - 1;
            self.top.lines = body.copy().into_passage();
            self.top.frame.kind = Kind::Turn { body, more };
            return Ok(LineResult::Consumed);
        }
        match self.below.pop() {
            Some(source) => {
                let ended = mem::replace(&mut self.top, source);
                self.names.end(&ended.frame.kind);
                Ok(LineResult::Consumed)
            }
            None => Ok(LineResult::Finished),
        }
    }

    /// Reads the next line and does what it asks for, or else ends the innermost file, expansion or turn.
    fn read(
        &mut self,
        files: &'a Files,
        symbols: &Symbols,
    ) -> Result<LineResult<'a>, Failure<ExpanderFault>>
        requires bounded { IsBounded (config self.old) }
        requires reading { self.old.mode ≡ modes.Reading }
        ensures { Follows (runs.front files.now symbols.now (config self.old).lines (config self.old)) result (config self.new) }
    {
        match self.next_row() {
            Ok(Some(row)) => self.read_line(files, symbols, row),
            Ok(None) => self.end_source(),
            Err(refusal) => Err(refusal),
        }
    }

    /// Collects the next line for the body of this macro. Where there is no line, the block is left open
    /// (31).
    pub(crate) fn read_into_macro(
        &mut self,
        name: String,
        parameters: Vec<String>,
        nested: usize,
    ) -> Result<LineResult<'a>, Failure<ExpanderFault>>
        requires collected { nested < 2 ^ 31 }
        requires reading { self.old.mode ≡ modes.Reading }
        ensures { (files : meaning.Files) (s : Table) → Follows (runs.front files s (config self.old).lines (record (config self.old) { mode = exp.InMacro (string_bytes name) (bytes_of_names parameters.items) self.old.top.lines.passed nested })) result (config self.new) }
    {
        match self.next_row() {
            Ok(Some(row)) => consumed(self.collect_macro(row, name, parameters, nested)),
            Ok(None) => Err(fault(FaultKind::OpenBlock, self.top.frame.last)),
            Err(refusal) => Err(refusal),
        }
    }

    /// Collects the next line for the body of this loop. Where there is no line, the block is left open (31).
    pub(crate) fn read_into_loop(
        &mut self,
        turns: usize,
        nested: usize,
    ) -> Result<LineResult<'a>, Failure<ExpanderFault>>
        requires collected { nested < 2 ^ 31 }
        requires reading { self.old.mode ≡ modes.Reading }
        ensures { (files : meaning.Files) (s : Table) → Follows (runs.front files s (config self.old).lines (record (config self.old) { mode = exp.InLoop turns self.old.top.lines.passed nested })) result (config self.new) }
    {
        match self.next_row() {
            Ok(Some(row)) => consumed(self.collect_loop(row, turns, nested)),
            Ok(None) => Err(fault(FaultKind::OpenBlock, self.top.frame.last)),
            Err(refusal) => Err(refusal),
        }
    }

    /// Does one rewriting.
    #[tactic(auto, unfolding(c25_meaning_expansion::specs::ExpansionRuns::rewrite))]
    pub(crate) fn step(
        &mut self,
        files: &'a Files,
        symbols: &Symbols,
    ) -> Result<LineResult<'a>, Failure<ExpanderFault>>
        requires { IsBounded (config self.old) }
        ensures { Follows (runs.rewrite files.now symbols.now (config self.old)) result (config self.new) }
    {
        match mem::replace(&mut self.mode, Mode::Reading) {
            Mode::Reading => self.read(files, symbols),
            Mode::Acting { place, act } => consumed(self.act(files, symbols, place, act)),
            Mode::InMacro {
                name,
                parameters,
                nested,
            } => self.read_into_macro(name, parameters, nested),
            Mode::InLoop { turns, nested } => self.read_into_loop(turns, nested),
        }
    }

    /// The next line, or None where no line is left.
    pub(crate) fn next(
        &mut self,
        files: &'a Files,
        symbols: &Symbols,
    ) -> Result<Option<Line<'a>>, Failure<ExpanderFault>>
        requires { IsBounded (config self.old) }
        ensures answer { Answers (runs.first files.now symbols.now (config self.old)) result (config self.new) }
        ensures bounded { OnOk result (IsBounded (config self.new)) }
    {
        loop {
            match self.step(files, symbols) {
                Ok(LineResult::Given(row)) => return Ok(Some(row)),
                Ok(LineResult::Finished) => return Ok(None),
                Ok(LineResult::Consumed) => {}
                Err(failure) => return Err(failure),
            }
        }
    }
}
