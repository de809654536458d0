//! The clause of inductive knowledge that each statement leads on to where no more is known.

ghost use Rattle.std.specs.Prelude.{◌≡◌, ◌+◌, ◌%◌, ◌^◌, ℕ, true, Some, IsTrue, OnOk};
ghost use Rattle.std.specs.List.{All};
ghost use Rattle.c25_meaning_instructions.specs.declared.insn.Insn.{Insn};
ghost use Rattle.c25_meaning_instructions.specs.Table.{size_of};
ghost use Rattle.c25_meaning_pages.specs.Known.{LeadsTo};
ghost use Rattle.c25_meaning_pages.specs.KnownAfter.{known_after};
ghost use Rattle.c25_meaning_pages.specs.Routines.{Acts, Begins, LeadsOn};
ghost use Rattle.c25_pages.specs.Clauses.{ActsAt};
ghost use Rattle.c25_pages.specs.Flow.{FlowsOn};
ghost use Rattle.c25_pages.specs.Program.{IsAscending, statements_of};
ghost use Rattle.c25_pages.specs.Table.{IsOrdered, knowledge_of, lands_on};

use crate::after::known_after;
use crate::flow::{Flow, flow_of};
use crate::leads::{Call, begins, leads_to, may_return};
use crate::program::Program;
use crate::refusal::Refusal;
use crate::saved::{saved_before, saved_by};
use crate::stacked::{pushes, takes};
use crate::table::{Row, Table};
use c25_isa::size_of;
use c25_meaning_instructions::insn::Insn;
use c25_meaning_pages::known::{Known, Saved};

/// Whether BACC leads on, to each address to which it is supposed to go.
fn goes_to_landings(table: &Table, known: &Known, context: usize) -> bool
    requires { IsOrdered table.now }
    ensures { IsTrue result → (target : ℕ) → lands_on table.now.landings.items target ≡ true
        → LeadsTo (knowledge_of table.now) known.now context target }
{
    for landing in &table.landings {
        if !leads_to(table, known, context, *landing) {
            return false;
        }
    }
    true
}

/// Whether CALA begins a routine at each address to which it is supposed to go.
fn calls_landings(table: &Table, known: &Known, context: usize, back: u16) -> bool
    requires { IsOrdered table.now }
    ensures { IsTrue result → (target : ℕ) → lands_on table.now.landings.items target ≡ true
        → Begins (knowledge_of table.now) known.now target context back }
{
    for landing in &table.landings {
        let call = Call {
            target: *landing,
            context,
            back,
        };
        if !begins(table, known, &call) {
            return false;
        }
    }
    true
}

/// Whether what is known after an instruction leads on; `next` is the address of the instruction after it.
fn flows_on(table: &Table, flow: &Flow, known: &Known, context: usize, next: u16) -> bool
    requires { IsOrdered table.now }
    ensures { IsTrue result → (address : ℕ)
        → FlowsOn (knowledge_of table.now) flow.now known.now context address next }
{
    match flow {
        Flow::On => leads_to(table, known, context, next),
        Flow::Goes(target) => leads_to(table, known, context, *target),
        Flow::Branches(target) => leads_to(table, known, context, *target)
            && leads_to(table, known, context, next),
        Flow::Calls(target) => {
            let call = Call {
                target: *target,
                context,
                back: next,
            };
            begins(table, known, &call)
        }
        Flow::Returns => may_return(table, known, context),
        Flow::GoesByAccumulator => goes_to_landings(table, known, context),
        Flow::CallsByAccumulator => calls_landings(table, known, context, next),
        Flow::Pushes => pushes(table, known, context, next),
        Flow::Takes => takes(table, known, context, next),
    }
}

/// The address of the instruction after one.
fn next_address(address: u16, insn: &Insn) -> u16
    ensures { result ≡ (address + size_of insn.now) % 2 ^ 16 }
{
    address.wrapping_add(size_of(insn.mnemonic()))
}

/// Whether an instruction leads on from a row, with an ST0 that is then known to be saved.
fn leads_on_with(table: &Table, row: &Row, insn: &Insn, saved: Option<Saved>) -> bool
    requires { IsOrdered table.now }
    ensures { IsTrue result → LeadsOn (knowledge_of table.now) insn.now
        (record (known_after insn.now row.now.known) { saved = saved })
        row.now.context row.now.address ((row.now.address + size_of insn.now) % 2 ^ 16) }
{
    let known = known_after(insn, &row.known);
    let after = Known { saved, ..known };
    let next = next_address(row.address, insn);
    flows_on(table, &flow_of(insn), &after, row.context, next)
}

/// Whether an instruction at a row acts once and leads on.
fn acts(table: &Table, row: &Row, insn: &Insn) -> bool
    requires { IsOrdered table.now }
    ensures { IsTrue result → Acts (knowledge_of table.now) insn.now row.now.known row.now.context row.now.address }
{
    let before = saved_before(table, row, insn);
    if leads_on_with(table, row, insn, before) {
        return true;
    }
    let by_insn = saved_by(insn, &row.known);
    leads_on_with(table, row, insn, by_insn)
}

/// Whether an instruction at a row, if there is one, leads on.
fn acts_if_any(table: &Table, row: &Row, insn: &Option<Insn>) -> bool
    requires { IsOrdered table.now }
    ensures { IsTrue result → (i : Insn) → insn.now ≡ Some i
        → Acts (knowledge_of table.now) i row.now.known row.now.context row.now.address }
{
    match insn {
        Some(insn) => acts(table, row, insn),
        None => true,
    }
}

/// Whether each instruction that may act at a row leads on, if the processor may be awake there.
fn acts_at(program: &Program, table: &Table, row: &Row) -> bool
    requires rows { IsOrdered table.now }
    requires statements { IsAscending program.now }
    ensures { IsTrue result → ActsAt (statements_of program.now) (knowledge_of table.now) row.now }
{
    if row.known.asleep {
        return true;
    }
    let plain = program.find_statement(row.address);
    if !acts_if_any(table, row, &plain) {
        return false;
    }
    let copied = program.copied_at(row.address);
    acts_if_any(table, row, &copied)
}

/// The clause of inductive knowledge that each statement leads on to where no more is known.
///
/// Errors: the first row at which an instruction does not.
pub(crate) fn verify_acts(program: &Program, table: &Table) -> Result<(), Refusal>
    requires rows { IsOrdered table.now }
    requires statements { IsAscending program.now }
    ensures { OnOk result (All (ActsAt (statements_of program.now) (knowledge_of table.now)) table.now.rows.items) }
{
    for row in &table.rows {
        if !acts_at(program, table, row) {
            return Err(Refusal::Acts(*row));
        }
    }
    Ok(())
}
