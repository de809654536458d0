//! The clause of inductive knowledge that each interrupt that may be taken begins a routine.

ghost use Rattle.std.specs.Prelude.{◌≡◌, IsTrue, OnOk};
ghost use Rattle.std.specs.List.{All};
ghost use Rattle.c25_meaning_pages.specs.Routines.{Interrupts, known_on_entry};
ghost use Rattle.c25_meaning_processor.specs.Step.{has};
ghost use Rattle.c25_pages.specs.Clauses.{InterruptsAt};
ghost use Rattle.c25_pages.specs.Table.{IsOrdered, knowledge_of};

use crate::leads::{Call, begins};
use crate::refusal::Refusal;
use crate::table::{Row, Table};
use c25_meaning_pages::known::Known;

/// What is known where the routine of an interrupt begins.
pub fn known_on_entry(known: &Known) -> Known
    ensures { result ≡ known_on_entry known.now }
{
    Known {
        masked: true,
        shadowed: false,
        once: true,
        asleep: false,
        ..*known
    }
}

/// Whether a set of interrupt lines has a line.
fn has(lines: u16, line: u16) -> bool
    ensures { result ≡ has lines line }
{
    lines & line == line
}

/// Whether an interrupt line, if it is let through, begins a routine at its vector from a row.
fn interrupts_by(table: &Table, row: &Row, line: u16, vector: u16) -> bool
    requires { IsOrdered table.now }
    ensures { IsTrue result
        → Interrupts (knowledge_of table.now) row.now.known line vector row.now.context row.now.address }
{
    if !has(table.lines, line) {
        return true;
    }
    let entry = known_on_entry(&row.known);
    let call = Call {
        target: vector,
        context: row.context,
        back: row.address,
    };
    begins(table, &entry, &call)
}

/// Whether each of the three interrupt lines, if it is let through, begins a routine from a row.
fn interrupts(table: &Table, row: &Row) -> bool
    requires { IsOrdered table.now }
    ensures { IsTrue result → Interrupts (knowledge_of table.now) row.now.known 1 2 row.now.context row.now.address
        × Interrupts (knowledge_of table.now) row.now.known 2 4 row.now.context row.now.address
        × Interrupts (knowledge_of table.now) row.now.known 4 6 row.now.context row.now.address }
{
    interrupts_by(table, row, 1, 2)
        && interrupts_by(table, row, 2, 4)
        && interrupts_by(table, row, 4, 6)
}

/// Whether each interrupt that may be taken at a row begins a routine.
fn interrupts_at(table: &Table, row: &Row) -> bool
    requires { IsOrdered table.now }
    ensures { IsTrue result → InterruptsAt (knowledge_of table.now) row.now }
{
    if row.known.masked {
        return true;
    }
    if row.known.shadowed {
        return true;
    }
    interrupts(table, row)
}

/// The clause of inductive knowledge that each interrupt that may be taken begins a routine.
///
/// Errors: the first row where one may be taken that begins no routine.
pub(crate) fn verify_interrupts(table: &Table) -> Result<(), Refusal>
    requires { IsOrdered table.now }
    ensures { OnOk result (All (InterruptsAt (knowledge_of table.now)) table.now.rows.items) }
{
    for row in &table.rows {
        if !interrupts_at(table, row) {
            return Err(Refusal::Interrupts(*row));
        }
    }
    Ok(())
}
