//! The absolute operands of a line.

ghost use Rattle.std.specs.Prelude.{◌≡◌, ◌≤◌, ◌++◌, OnOk};
ghost use Rattle.c25_absolute_operands.specs.Operands.{act_operands, far_direct, far_number, far_valued, line_operands, operand_at, operands_from, statement_operands};
ghost use Rattle.c25_bits.specs.Cut.{cut};
ghost use Rattle.c25_expr.specs.View.{tree_of};
ghost use Rattle.c25_line_warnings.specs.View.{line_of};
ghost use Rattle.c25_meaning_assembly.specs.AssemblyLine.{read_statement};
ghost use Rattle.c25_meaning_assembly.specs.Sections.{place};
ghost use Rattle.c25_statements.specs.View.{act_of, trees_of};

use c25_expr::Symbols;
use c25_expr::tree::Expr;
use c25_expr::value::value;
use c25_line_warnings::source_line::SourceLine;
use c25_meaning_assembly::assembly::Target;
use c25_meaning_common::failure::Failure;
use c25_meaning_common::no_memory::NoMemory;
use c25_meaning_language::statement::{Field, Form};
use c25_meaning_language::value::{Base, Value};
use c25_page_reports::AbsoluteOperand;
use c25_statements::fields::form_field;
use c25_statements::read_statement;
use c25_statements::statement::AssemblyAct;
use std::alloc::Global;

/// The first number whose page can be read off it.
const FIRST: i32 = 128;

/// The greatest offset at which an instruction begins.
const LAST_OFFSET: u32 = 65_535;

/// The low 16 bits of a number.
fn low_word(number: i32) -> u16
    ensures { result ≡ cut number 16 }
{
    number.rem_euclid(65_536) as u16
}

/// The number that a value is, if it is absolute and 128 or more.
fn far_number(value: Value) -> Option<u16>
    ensures { result ≡ far_number value.base value.offset }
{
    match value.base {
        Base::Absolute => {
            if value.offset < FIRST {
                None
            } else {
                Some(low_word(value.offset))
            }
        }
        Base::Section(_) | Base::Loaded(_) | Base::External(_) => None,
    }
}

/// The number that an expression is, if it fills the field of a direct address.
fn far_direct(symbols: &Symbols, field: Field, expr: &Expr) -> Option<u16>
    ensures { result ≡ far_direct symbols.now field (tree_of expr.now) }
{
    match field {
        Field::Low7 => match value(expr, symbols) {
            Ok(value) => far_number(value),
            Err(_) => None,
        },
        _ => None,
    }
}

/// A line in the module of a number.
#[derive(Clone, Copy)]
pub(crate) struct Numbered<'b, 'a> {
    pub(crate) number: usize,
    pub(crate) line: &'b SourceLine<'a>,
}

/// Appends an absolute operand of a line, if there is one.
fn push_operand(
    operands: &mut Vec<AbsoluteOperand>,
    numbered: Numbered<'_, '_>,
    word: Option<u16>,
) -> Result<(), NoMemory>
    requires { numbered.line.now.offset ≤ 65535 }
    ensures { OnOk result (operands.new.items ≡ operands.old.items ++ operand_at numbered.entry.number (line_of numbered.entry.line.now) word) }
{
    let Numbered { number, line } = numbered;
    match word {
        Some(word) => {
            operands.push(AbsoluteOperand {
                number,
                section: line.section,
                offset: line.offset as u16,
                word,
            })?;
            Ok(())
        }
        None => Ok(()),
    }
}

/// Appends the absolute operands among the expressions of an instruction.
fn push_expressions(
    symbols: &Symbols,
    operands: &mut Vec<AbsoluteOperand>,
    numbered: Numbered<'_, '_>,
    form: Form,
    exprs: &[Expr],
) -> Result<(), NoMemory>
    requires { numbered.line.now.offset ≤ 65535 }
    ensures { OnOk result (operands.new.items ≡ operands.old.items ++ operands_from symbols.now numbered.entry.number (line_of numbered.entry.line.now) form 0 (trees_of exprs.now)) }
{
    for index in 0..exprs.len() {
        let word = far_direct(symbols, form_field(form, index), &exprs[index]);
        push_operand(operands, numbered, word)?;
    }
    Ok(())
}

/// The place of a line, which `$` stands for.
fn place_of(line: &SourceLine<'_>) -> Value
    requires { line.now.offset ≤ 65535 }
    ensures { result ≡ place line.now.section line.now.offset }
{
    Value {
        base: Base::Section(line.section),
        offset: line.offset as i32,
    }
}

/// Appends the absolute operands of what a line does.
fn push_act(
    symbols: &mut Symbols,
    operands: &mut Vec<AbsoluteOperand>,
    numbered: Numbered<'_, '_>,
    act: &AssemblyAct<'_>,
) -> Result<(), NoMemory>
    requires { numbered.line.now.offset ≤ 65535 }
    ensures operands { OnOk result (operands.new.items ≡ operands.old.items ++ act_operands symbols.old.entries numbered.entry.number (line_of numbered.entry.line.now) (act_of act.now)) }
    ensures names { symbols.new.entries ≡ symbols.old.entries }
{
    match act {
        AssemblyAct::Put(Target::Instruction(form), exprs) => {
            symbols.set_here(place_of(numbered.line));
            push_expressions(symbols, operands, numbered, *form, exprs.as_slice())
        }
        _ => Ok(()),
    }
}

/// Appends the absolute operands of a line, under the names of its module.
#[tactic(auto, unfolding(crate::specs::Operands::line_operands))]
pub(crate) fn push_line(
    alloc: Global,
    symbols: &mut Symbols,
    operands: &mut Vec<AbsoluteOperand>,
    numbered: Numbered<'_, '_>,
) -> Result<(), NoMemory>
    ensures operands { OnOk result (operands.new.items ≡ operands.old.items ++ line_operands symbols.old.entries numbered.entry.number (line_of numbered.entry.line.now)) }
    ensures names { symbols.new.entries ≡ symbols.old.entries }
{
    let line = numbered.line;
    if LAST_OFFSET < line.offset {
        return Ok(());
    }
    match read_statement(alloc, line.text.as_str()) {
        Ok(statement) => push_act(symbols, operands, numbered, &statement.act),
        Err(Failure::Fault(_)) => Ok(()),
        Err(Failure::NoMemory(error)) => Err(error),
    }
}
