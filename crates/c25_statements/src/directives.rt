//! What each directive does, by its operands.

ghost use Rattle.c25_meaning_assembly.specs.AssemblyLine as says;
ghost use Rattle.c25_meaning_common.specs.Results.{Meets};
ghost use Rattle.c25_statements.specs.Steps as steps;
ghost use Rattle.c25_expr.specs.Pieces.{pieces_of, operands_view};
ghost use Rattle.c25_statements.specs.View.{act_of};

use crate::operands::{alone, expressions_in, flagged, later_in, some, some_names};
use crate::sections::section_in;
use crate::statement::AssemblyAct;
use crate::strings::strings_in;
use c25_expr::directive_operands::{expression_in, name_in};
use c25_meaning_assembly::assembly::{DataWidth, Directive, Target};
use c25_meaning_common::failure::Failure;
use c25_meaning_language::statement::FaultKind;
use c25_text::tokens::Token;
use std::alloc::Global;

/// A directive that takes no operand.
fn without<'a>(
    act: AssemblyAct<'a>,
    operands: &[&[Token<'_>]],
) -> Result<AssemblyAct<'a>, Failure<FaultKind>>
    ensures { Meets act_of (says.without (act_of act.entry) (operands_view operands.now)) result }
{
    operands
        .is_empty()
        .then_some(act)
        .ok_or(Failure::Fault(FaultKind::OperandCount))
}

/// `.text`, `.data`
fn entering_named<'a>(
    alloc: Global,
    section: &str,
    operands: &[&[Token<'_>]],
) -> Result<AssemblyAct<'a>, Failure<FaultKind>>
    ensures { Meets act_of (says.without (says.Enter section.now) (operands_view operands.now)) result }
{
    let section = String::from_str(alloc, section)?;
    without(AssemblyAct::Enter(section), operands)
}

/// `.sect`
fn entering<'a>(
    alloc: Global,
    operands: &[&[Token<'_>]],
) -> Result<AssemblyAct<'a>, Failure<FaultKind>>
    ensures { Meets act_of (says.entering (operands_view operands.now)) result }
{
    match operands {
        [operand] => match section_in(alloc, operand) {
            Ok(section) => Ok(AssemblyAct::Enter(section)),
            Err(failure) => Err(failure),
        },
        _ => Err(Failure::Fault(FaultKind::OperandCount)),
    }
}

/// `.bss` with a name and a count
fn reserving_pair<'a>(
    alloc: Global,
    name: &[Token<'a>],
    count: &[Token<'_>],
) -> Result<AssemblyAct<'a>, Failure<FaultKind>>
    ensures { Meets act_of (steps.reserving_pair (pieces_of name.now) (pieces_of count.now)) result }
{
    match name_in(name) {
        Ok(name) => {
            let section = String::from_str(alloc, ".bss")?;
            let count = later_in(alloc, count)?;
            Ok(AssemblyAct::Reserve {
                section,
                name,
                room: alone(count),
            })
        }
        Err(fault) => Err(Failure::Fault(fault)),
    }
}

/// `.bss` with a name, a count and a flag
fn reserving_flagged<'a>(
    alloc: Global,
    name: &[Token<'a>],
    count: &[Token<'_>],
    flag: &[Token<'_>],
) -> Result<AssemblyAct<'a>, Failure<FaultKind>>
    ensures { Meets act_of (steps.reserving_flagged (pieces_of name.now) (pieces_of count.now) (pieces_of flag.now)) result }
{
    match name_in(name) {
        Ok(name) => {
            let section = String::from_str(alloc, ".bss")?;
            let count = later_in(alloc, count)?;
            let flag = later_in(alloc, flag)?;
            Ok(AssemblyAct::Reserve {
                section,
                name,
                room: flagged(count, flag),
            })
        }
        Err(fault) => Err(Failure::Fault(fault)),
    }
}

/// `.bss`
fn reserving<'a>(
    alloc: Global,
    operands: &[&[Token<'a>]],
) -> Result<AssemblyAct<'a>, Failure<FaultKind>>
    ensures { Meets act_of (says.reserving (operands_view operands.now)) result }
{
    match operands {
        [name, count] => reserving_pair(alloc, name, count),
        [name, count, flag] => reserving_flagged(alloc, name, count, flag),
        _ => Err(Failure::Fault(FaultKind::OperandCount)),
    }
}

/// `.usect` with a section and a count
fn reserving_pair_in<'a>(
    alloc: Global,
    name: &'a str,
    section: &[Token<'_>],
    count: &[Token<'_>],
) -> Result<AssemblyAct<'a>, Failure<FaultKind>>
    ensures { Meets act_of (steps.reserving_pair_in name.now (pieces_of section.now) (pieces_of count.now)) result }
{
    let section = section_in(alloc, section)?;
    let count = later_in(alloc, count)?;
    Ok(AssemblyAct::Reserve {
        section,
        name,
        room: alone(count),
    })
}

/// `.usect`
fn reserving_in<'a>(
    alloc: Global,
    name: &'a str,
    operands: &[&[Token<'_>]],
) -> Result<AssemblyAct<'a>, Failure<FaultKind>>
    ensures { Meets act_of (says.reserving_in name.now (operands_view operands.now)) result }
{
    match operands {
        [section, count] => reserving_pair_in(alloc, name, section, count),
        _ => Err(Failure::Fault(FaultKind::OperandCount)),
    }
}

/// `.space`
fn spacing<'a>(
    alloc: Global,
    operands: &[&[Token<'_>]],
) -> Result<AssemblyAct<'a>, Failure<FaultKind>>
    ensures { Meets act_of (says.with_expression says.Space (operands_view operands.now)) result }
{
    match operands {
        [operand] => match expression_in(alloc, operand) {
            Ok(bits) => Ok(AssemblyAct::Space(bits)),
            Err(failure) => Err(failure),
        },
        _ => Err(Failure::Fault(FaultKind::OperandCount)),
    }
}

/// `.set`, `.equ`
fn equating<'a>(
    alloc: Global,
    name: &'a str,
    operands: &[&[Token<'_>]],
) -> Result<AssemblyAct<'a>, Failure<FaultKind>>
    ensures { Meets act_of (says.with_expression (says.Equate name.now) (operands_view operands.now)) result }
{
    match operands {
        [operand] => match expression_in(alloc, operand) {
            Ok(value) => Ok(AssemblyAct::Equate { name, value }),
            Err(failure) => Err(failure),
        },
        _ => Err(Failure::Fault(FaultKind::OperandCount)),
    }
}

/// `.string`
fn loading<'a>(
    alloc: Global,
    operands: &[&[Token<'_>]],
) -> Result<AssemblyAct<'a>, Failure<FaultKind>>
    ensures { Meets act_of (says.loading (operands_view operands.now)) result }
{
    match some(operands) {
        Ok(()) => match strings_in(alloc, operands) {
            Ok(words) => Ok(AssemblyAct::Load(words)),
            Err(failure) => Err(failure),
        },
        Err(fault) => Err(Failure::Fault(fault)),
    }
}

/// `.label`
fn naming<'a>(operands: &[&[Token<'a>]]) -> Result<AssemblyAct<'a>, Failure<FaultKind>>
    ensures { Meets act_of (says.naming (operands_view operands.now)) result }
{
    match operands {
        [operand] => match name_in(operand) {
            Ok(name) => Ok(AssemblyAct::Label(name)),
            Err(fault) => Err(Failure::Fault(fault)),
        },
        _ => Err(Failure::Fault(FaultKind::OperandCount)),
    }
}

/// `.word`, `.int`, `.byte`
fn putting<'a>(
    alloc: Global,
    target: Target,
    operands: &[&[Token<'_>]],
) -> Result<AssemblyAct<'a>, Failure<FaultKind>>
    ensures { Meets act_of (steps.putting target (operands_view operands.now)) result }
{
    match expressions_in(alloc, operands) {
        Ok(values) => Ok(AssemblyAct::Put(target, values)),
        Err(failure) => Err(failure),
    }
}

/// What a directive does on a line with a label and operands.
#[tactic(auto, unfolding(c25_meaning_assembly::specs::AssemblyLine::act_of))]
pub(crate) fn act_of<'a>(
    alloc: Global,
    directive: Directive,
    label: &'a str,
    operands: &[&[Token<'a>]],
) -> Result<AssemblyAct<'a>, Failure<FaultKind>>
    ensures { Meets act_of (says.act_of directive label.now (operands_view operands.now)) result }
{
    match directive {
        Directive::Text => entering_named(alloc, ".text", operands),
        Directive::Data => entering_named(alloc, ".data", operands),
        Directive::Sect => entering(alloc, operands),
        Directive::Bss => reserving(alloc, operands),
        Directive::Usect => reserving_in(alloc, label, operands),
        Directive::Word => putting(alloc, Target::Data(DataWidth::Word), operands),
        Directive::Byte => putting(alloc, Target::Data(DataWidth::Byte), operands),
        Directive::Characters => loading(alloc, operands),
        Directive::Space => spacing(alloc, operands),
        Directive::Set => equating(alloc, label, operands),
        Directive::Global => match some_names(alloc, operands) {
            Ok(names) => Ok(AssemblyAct::Declare(names)),
            Err(failure) => Err(failure),
        },
        Directive::Def => match some_names(alloc, operands) {
            Ok(names) => Ok(AssemblyAct::Export(names)),
            Err(failure) => Err(failure),
        },
        Directive::Label => naming(operands),
        Directive::Registers => without(AssemblyAct::Registers, operands),
        Directive::Ignored => Ok(AssemblyAct::Nothing),
    }
}
