//! The clause of inductive knowledge that each repetition leads to where no more is known.

ghost use Rattle.std.specs.Prelude.{◌≡◌, Some, false, IsTrue, OnOk};
ghost use Rattle.std.specs.List.{All};
ghost use Rattle.c25_meaning_instructions.specs.declared.insn.Insn.{Insn};
ghost use Rattle.c25_meaning_pages.specs.Known.{Implies};
ghost use Rattle.c25_meaning_pages.specs.KnownAfter.{known_after};
ghost use Rattle.c25_meaning_pages.specs.Routines.{Repeats, moves_word};
ghost use Rattle.c25_pages.specs.Clauses.{RepeatsAt};
ghost use Rattle.c25_pages.specs.Program.{IsAscending, statements_of};
ghost use Rattle.c25_pages.specs.Table.{knowledge_of};

use crate::after::known_after;
use crate::implied::implies;
use crate::program::Program;
use crate::refusal::Refusal;
use crate::saved::{saved_before, saved_by};
use crate::table::{Row, Table};
use c25_meaning_instructions::insn::Insn;
use c25_meaning_instructions::mnemonic::{MemName, PlainName};
use c25_meaning_pages::known::{Known, Saved};

/// Whether what a row says is known again before the next repetition, with an ST0 that is then known to be saved.
fn repeats_with(row: &Row, insn: &Insn, saved: Option<Saved>) -> bool
    ensures { IsTrue result
        → Implies (record (known_after insn.now row.now.known) { saved = saved; once = false }) row.now.known }
{
    let again = Known {
        saved,
        once: false,
        ..known_after(insn, &row.known)
    };
    implies(&again, &row.known)
}

/// Whether an instruction pushes a word onto the stack or takes one from it.
fn moves_word(insn: &Insn) -> bool
    ensures { result ≡ moves_word insn.now }
{
    match insn {
        Insn::Plain(PlainName::Push | PlainName::Pop, _)
        | Insn::Mem(MemName::Pshd | MemName::Popd, _) => true,
        _ => false,
    }
}

/// Whether an instruction at a row may be repeated there, if a repeat may be running.
fn repeats(table: &Table, row: &Row, insn: &Insn) -> bool
    ensures { IsTrue result → Repeats (knowledge_of table.now) insn.now row.now.known row.now.address }
{
    if row.known.once {
        return true;
    }
    if moves_word(insn) {
        return false;
    }
    let before = saved_before(table, row, insn);
    if repeats_with(row, insn, before) {
        return true;
    }
    let by_insn = saved_by(insn, &row.known);
    repeats_with(row, insn, by_insn)
}

/// Whether an instruction at a row, if there is one, may be repeated there.
fn repeats_if_any(table: &Table, row: &Row, insn: &Option<Insn>) -> bool
    ensures { IsTrue result → (i : Insn) → insn.now ≡ Some i
        → Repeats (knowledge_of table.now) i row.now.known row.now.address }
{
    match insn {
        Some(insn) => repeats(table, row, insn),
        None => true,
    }
}

/// Whether each instruction that may act at a row may be repeated there, if the processor may be awake there.
fn repeats_at(program: &Program, table: &Table, row: &Row) -> bool
    requires { IsAscending program.now }
    ensures { IsTrue result → RepeatsAt (statements_of program.now) (knowledge_of table.now) row.now }
{
    if row.known.asleep {
        return true;
    }
    let plain = program.find_statement(row.address);
    if !repeats_if_any(table, row, &plain) {
        return false;
    }
    let copied = program.copied_at(row.address);
    repeats_if_any(table, row, &copied)
}

/// The clause of inductive knowledge that each repetition leads to where no more is known.
///
/// Errors: the first row at which one does not.
pub(crate) fn verify_repeats(program: &Program, table: &Table) -> Result<(), Refusal>
    requires { IsAscending program.now }
    ensures { OnOk result (All (RepeatsAt (statements_of program.now) (knowledge_of table.now)) table.now.rows.items) }
{
    for row in &table.rows {
        if !repeats_at(program, table, row) {
            return Err(Refusal::Repeats(*row));
        }
    }
    Ok(())
}
