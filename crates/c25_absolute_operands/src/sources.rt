//! The absolute operands of sources.

ghost use Rattle.std.specs.Prelude.{◌≡◌, ◌++◌, IfOk, OnOk, map};
ghost use Rattle.std.specs.List.{flat_map};
ghost use Rattle.c25_absolute_operands.specs.Operands.{absolute_operands, line_operands, operands_of_lines};
ghost use Rattle.c25_line_warnings.specs.View.{lines_of};
ghost use Rattle.c25_warnings.specs.SourceLines.{source_lines};

use crate::line::{Numbered, push_line};
use c25_expr::Symbols;
use c25_files::files::Files;
use c25_line_warnings::source_line::SourceLine;
use c25_meaning_common::no_memory::NoMemory;
use c25_page_reports::AbsoluteOperand;
use c25_warnings::lines::{SourceLines, source_lines};
use std::alloc::Global;

/// Appends the absolute operands of lines of the module of a number, under the names of the module.
fn push_lines(
    alloc: Global,
    symbols: &mut Symbols,
    operands: &mut Vec<AbsoluteOperand>,
    number: usize,
    lines: &[SourceLine<'_>],
) -> Result<(), NoMemory>
    ensures { OnOk result (operands.new.items ≡ operands.old.items ++ flat_map (line_operands symbols.old.entries number) (lines_of lines.now)) }
{
    for line in lines {
        push_line(alloc, symbols, operands, Numbered { number, line })?;
    }
    Ok(())
}

/// Appends the absolute operands of the source of a name, whose module has a number.
fn push_source(
    alloc: Global,
    operands: &mut Vec<AbsoluteOperand>,
    files: &Files,
    number: usize,
    name: &str,
) -> Result<(), NoMemory>
    ensures { OnOk result (operands.new.items ≡ operands.old.items ++ operands_of_lines number (source_lines files.now name.now)) }
{
    let Some(SourceLines { progress, lines }) = source_lines(alloc, files, name)? else {
        return Ok(());
    };
    let mut symbols = Box::into_inner(progress).into_symbols();
    push_lines(alloc, &mut symbols, operands, number, lines.as_slice())
}

/// The absolute direct operands of the sources of these names that are 128 or more, in the order of their lines after
/// expansion. The modules of the sources are numbered in the order of the names, from 0 on.
///
/// `NoMemory` where memory runs out.
pub fn absolute_operands(
    alloc: Global,
    files: &Files,
    names: &[&str],
) -> Result<Vec<AbsoluteOperand>, NoMemory>
    ensures { IfOk result (λ list. list.items ≡ absolute_operands files.now (map (λ n. n.now) names.now)) }
{
    let mut operands = Vec::new(alloc);
    for number in 0..names.len() {
        push_source(alloc, &mut operands, files, number, names[number])?;
    }
    Ok(operands)
}
