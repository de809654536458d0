//! Whether no run leaves the statements of a program.

ghost use Rattle.std.specs.Prelude.{◌≡◌, IsTrue, OnOk};
ghost use Rattle.c25_meaning_pages.specs.Inductive.{IsClosed};
ghost use Rattle.c25_meaning_processor.specs.Step.{is_unrepeatable};
ghost use Rattle.c25_pages.specs.Clauses.{ClosedAt, StandsAt};
ghost use Rattle.c25_pages.specs.Program.{IsAscending, statements_of};
ghost use Rattle.c25_pages.specs.Table.{knowledge_of};

use crate::program::Program;
use crate::refusal::Refusal;
use crate::table::{Row, Table};
use c25_isa::size_of;
use c25_meaning_instructions::insn::Insn;
use c25_meaning_instructions::mnemonic::{MemName, PlainName, ShortName};

/// Whether an instruction may not be repeated.
fn is_unrepeatable(insn: &Insn) -> bool
    ensures { result ≡ is_unrepeatable insn.now }
{
    match insn {
        Insn::Jump(_, _, _, _) | Insn::Long(_, _, _) => true,
        Insn::Mem(name, _) => *name == MemName::Rpt,
        Insn::Short(name, _, _) => *name == ShortName::Rptk,
        Insn::Plain(name, _) => matches!(
            *name,
            PlainName::Cala | PlainName::Bacc | PlainName::Ret | PlainName::Trap | PlainName::Idle
        ),
        _ => false,
    }
}

/// Whether a statement stands at a row, clear of block B0, that may be repeated if a repeat may be running.
fn stands_at(program: &Program, row: &Row) -> bool
    requires { IsAscending program.now }
    ensures { IsTrue result → StandsAt (statements_of program.now) row.now }
{
    let Some(insn) = program.find_statement(row.address) else {
        return false;
    };
    if program.copied_at(row.address).is_some() {
        return false;
    }
    if 0xFF00 < u32::from(row.address) + u32::from(size_of(insn.mnemonic())) {
        return false;
    }
    row.known.once || !is_unrepeatable(&insn)
}

/// Whether a statement stands at a row, or the processor surely is asleep there.
fn is_closed_at(program: &Program, row: &Row) -> bool
    requires { IsAscending program.now }
    ensures { IsTrue result → ClosedAt (statements_of program.now) row.now }
{
    if row.known.asleep {
        return true;
    }
    stands_at(program, row)
}

/// A statement stands at each row, or the processor surely is asleep there.
///
/// Errors: the first row at which none does.
fn verify_rows(program: &Program, table: &Table) -> Result<(), Refusal>
    requires { IsAscending program.now }
    ensures { OnOk result (IsClosed (statements_of program.now) (knowledge_of table.now)) }
{
    for row in &table.rows {
        if !is_closed_at(program, row) {
            return Err(Refusal::Open(*row));
        }
    }
    Ok(())
}

/// Decides whether knowledge is closed: a statement stands wherever something is known and the processor may be awake, clear
/// of block B0, and none that may not be repeated where a repeat may be running. If it is also inductive, no run leaves the statements.
///
/// Errors: the first row of the table at which it is not closed.
pub fn verify_closed(program: &Program, table: &Table) -> Result<(), Refusal>
    ensures { OnOk result (IsClosed (statements_of program.now) (knowledge_of table.now)) }
{
    if !program.is_ascending() {
        return Err(Refusal::Unordered);
    }
    verify_rows(program, table)
}
