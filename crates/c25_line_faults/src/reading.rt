//! The fault for which the assembler does not read a line.

ghost use Rattle.std.specs.Prelude.{◌≡◌, Ok, IfOk};
ghost use Rattle.std.specs.Option.{option_map};
ghost use Rattle.c25_meaning_assembly.specs.AssemblyLine as assembly;
ghost use Rattle.c25_statements.specs.View.{act_of, statement_of};
ghost use Rattle.c25_line_faults.specs.Reading.{equates_own, fault_in, labels_own, statement_fault};

use crate::directives::directive_in;
use crate::expansion_lines::order_fault;
use c25_expr::symbols::is_predefined;
use c25_meaning_common::failure::Failure;
use c25_meaning_common::no_memory::NoMemory;
use c25_meaning_language::statement::FaultKind;
use c25_statements::read_statement;
use c25_statements::statement::{AssemblyAct, Statement};
use std::alloc::Global;

/// Whether a label is a name that the assembler itself defines.
fn labels_own(label: Option<&str>) -> bool
    ensures { result ≡ labels_own (option_map (λ name. name.now) label.entry) }
{
    match label {
        Some(name) => is_predefined(name),
        None => false,
    }
}

/// Whether a line gives such a name a value.
fn equates_own(act: &AssemblyAct<'_>) -> bool
    ensures { result ≡ equates_own (act_of act.now) }
{
    match act {
        AssemblyAct::Equate { name, .. } => is_predefined(name),
        _ => false,
    }
}

/// The fault of a statement that is read: 26 where it defines a name of the assembler's own.
fn own_fault(statement: &Statement<'_>) -> Option<FaultKind>
    ensures { result ≡ statement_fault (Ok (statement_of statement.now)) }
{
    (labels_own(statement.label) || equates_own(&statement.act)).then_some(FaultKind::Defined)
}

/// The fault of a line without a directive of expansion.
fn statement_fault(alloc: Global, text: &str) -> Result<Option<FaultKind>, NoMemory>
    ensures { IfOk result (λ f. f ≡ statement_fault (assembly.read_statement text.now)) }
{
    match read_statement(alloc, text) {
        Ok(statement) => Ok(own_fault(&statement)),
        Err(Failure::Fault(fault)) => Ok(Some(fault)),
        Err(Failure::NoMemory(error)) => Err(error),
    }
}

/// The fault that a line shows as it stands: that of its text, its word or its operands (10 to 13, 20, 21, 35, 50, 51,
/// 52), or 26 where it defines a name that the assembler itself defines. None where the assembler reads the line.
/// `NoMemory` (9) where memory runs out.
#[tactic(auto, unfolding(crate::specs::Reading::fault_in))]
pub fn fault_in(alloc: Global, text: &str) -> Result<Option<FaultKind>, NoMemory>
    ensures { IfOk result (λ f. f ≡ fault_in text.now) }
{
    match directive_in(text) {
        Some(directive) => order_fault(alloc, directive, text),
        None => statement_fault(alloc, text),
    }
}
