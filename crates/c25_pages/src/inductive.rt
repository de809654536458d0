//! Whether what a table says is inductive, so that it is true in every run from a reset.

ghost use Rattle.std.specs.Prelude.{◌≡◌, OnOk};
ghost use Rattle.c25_meaning_pages.specs.Inductive.{IsInductive};
ghost use Rattle.c25_meaning_pages.specs.Known.{LeadsTo, known_on_reset};
ghost use Rattle.c25_pages.specs.Program.{IsAscending, statements_of};
ghost use Rattle.c25_pages.specs.Table.{IsOrdered, knowledge_of};

use crate::acts::verify_acts;
use crate::interrupts::verify_interrupts;
use crate::leads::leads_to;
use crate::program::Program;
use crate::refusal::Refusal;
use crate::repeats::verify_repeats;
use crate::table::Table;
use c25_meaning_pages::known::Known;

/// What is known after a reset.
pub fn known_on_reset() -> Known
    ensures { result ≡ known_on_reset }
{
    Known {
        page: Some(0),
        saved: None,
        masked: true,
        shadowed: false,
        once: true,
        asleep: false,
        pushed: 0,
    }
}

/// The rows of a table and the statements of a program ascend, as look-ups take for granted.
///
/// Errors: they do not.
fn verify_order(program: &Program, table: &Table) -> Result<(), Refusal>
    ensures rows { OnOk result (IsOrdered table.now) }
    ensures statements { OnOk result (IsAscending program.now) }
{
    if !table.is_ordered() {
        return Err(Refusal::Unordered);
    }
    if !program.is_ascending() {
        return Err(Refusal::Unordered);
    }
    Ok(())
}

/// The clause of inductive knowledge that a reset leads to address 0 with what is known there.
///
/// Errors: more is known there, or nothing.
fn verify_reset(table: &Table) -> Result<(), Refusal>
    requires { IsOrdered table.now }
    ensures { OnOk result (LeadsTo (knowledge_of table.now) known_on_reset 0 0) }
{
    let known = known_on_reset();
    if leads_to(table, &known, 0, 0) {
        Ok(())
    } else {
        Err(Refusal::Reset)
    }
}

/// Decides whether what a table says of a program is inductive: then it is true in every run from a reset that is as the
/// table supposes. How the table was found does not matter.
///
/// Errors: the first clause that does not hold, with its first row.
pub fn verify(program: &Program, table: &Table) -> Result<(), Refusal>
    ensures { OnOk result (IsInductive (statements_of program.now) (knowledge_of table.now)) }
{
    verify_order(program, table)?;
    verify_reset(table)?;
    verify_acts(program, table)?;
    verify_repeats(program, table)?;
    verify_interrupts(table)?;
    Ok(())
}
