//! Which supposition a state does not meet.

ghost use Rattle.std.specs.Prelude.{◌≡◌, ◌<◌, ℕ, false};
ghost use Rattle.c25_board.specs.Board.{signals, state, steps};
ghost use Rattle.c25_meaning_pages.specs.Supposed.{goes_by_accumulator};
ghost use Rattle.c25_meaning_processor.specs.Statements.{IsImageOf};
ghost use Rattle.c25_meaning_processor.specs.Step.{begun};
ghost use Rattle.c25_meaning_processor.specs.declared.lines.Lines.{Lines};
ghost use Rattle.c25_pages.specs.Program.{IsAscending, statements_of};
ghost use Rattle.c25_pages.specs.Table.{knowledge_of, lands_on};
ghost use Rattle.c25_suppositions.specs.Breaches.{IsBreachBy, IsFound, IsJudged, IsSparedWritten, IsWrongTarget, lets_no_other};

use crate::breach::Breach;
use crate::lines::lets_no_other;
use crate::run_board::RunBoard;
use crate::standing::standing_at;
use crate::written::{cnf_of, place_written};
use c25_meaning_instructions::insn::Insn;
use c25_meaning_instructions::mnemonic::PlainName;
use c25_pages::{Program, Table, writes};

/// The data address of IMR.
const IMR: usize = 4;

/// Whether IMR lets only those interrupt lines through that it is supposed to.
pub(crate) fn imr_is_supposed(board: &RunBoard, table: &Table) -> bool
    ensures { result ≡ lets_no_other table.now.lines ((state board.now).world.words 4) }
{
    lets_no_other(table.lines, board.data()[IMR])
}

/// The data word that is spared and written, if it is the same.
fn spared_written(spared: Option<u16>, written: Option<u16>) -> Option<u16>
    ensures { IsSparedWritten spared written result }
{
    match (spared, written) {
        (Some(spared), Some(written)) => {
            if spared == written {
                Some(spared)
            } else {
                None
            }
        }
        _ => None,
    }
}

/// Whether an instruction goes to the address in the accumulator.
fn goes_by_accumulator(insn: &Insn) -> bool
    ensures { result ≡ goes_by_accumulator insn.now }
{
    match insn {
        Insn::Plain(PlainName::Bacc | PlainName::Cala, _) => true,
        _ => false,
    }
}

/// Whether BACC and CALA are supposed to go to an address.
#[tactic(auto, unfolding(c25_pages::specs::Table::lands_on))]
fn may_go(table: &Table, target: u16) -> bool
    ensures { result ≡ lands_on table.now.landings.items target }
{
    table.landings.iter().any(|landing| *landing == target)
}

/// The address to which an instruction goes by the accumulator and is supposed not to go.
fn wrong_target(table: &Table, insn: &Insn, acc: u32) -> Option<u16>
    ensures { IsWrongTarget (lands_on table.now.landings.items) insn.now acc result }
{
    if !goes_by_accumulator(insn) {
        return None;
    }
    let target = (acc % 65_536) as u16;
    if may_go(table, target) {
        None
    } else {
        Some(target)
    }
}

/// The supposition that an instruction does not meet, by the word that it is to spare, the word that it writes and the
/// accumulator.
fn breach_by(
    table: &Table,
    insn: &Insn,
    spared: Option<u16>,
    written: Option<u16>,
    acc: u32,
) -> Option<Breach>
    ensures { IsBreachBy spared written (lands_on table.now.landings.items) insn.now acc result }
{
    match spared_written(spared, written) {
        Some(word) => Some(Breach::WritesSpared(word)),
        None => match wrong_target(table, insn, acc) {
            Some(target) => Some(Breach::GoesElsewhere(target)),
            None => None,
        },
    }
}

/// The supposition that the instruction at an address does not meet, if the processor acts there.
fn breach_at(board: &RunBoard, program: &Program, table: &Table, address: u16) -> Option<Breach>
    requires page { (state board.now).registers.dp < 512 }
    requires ascending { IsAscending program.now }
    requires image { IsImageOf (statements_of program.now) (state board.now).world }
    ensures { (lines : Lines) → (begun lines (state board.now)).asleep ≡ false
        → (begun lines (state board.now)).pc ≡ address
        → IsFound (statements_of program.now) (knowledge_of table.now) lines (state board.now) result }
{
    let regs = board.regs();
    match standing_at(board, program, cnf_of(&regs), address) {
        Some(insn) => {
            let written = place_written(&writes(&insn), &regs);
            breach_by(table, &insn, table.spared_at(address), written, regs.acc)
        }
        None => None,
    }
}

/// The supposition that the state of a board does not meet before its next step, if there is one.
pub(crate) fn breach_of(board: &RunBoard, program: &Program, table: &Table) -> Option<Breach>
    requires page { (state board.now).registers.dp < 512 }
    requires ascending { IsAscending program.now }
    requires image { IsImageOf (statements_of program.now) (state board.now).world }
    ensures { IsJudged (statements_of program.now) (knowledge_of table.now) ((signals board.now).lines (steps board.now)) (state board.now) result }
{
    if !imr_is_supposed(board, table) {
        return Some(Breach::OtherLine);
    }
    match board.acting() {
        Some(address) => breach_at(board, program, table, address),
        None => None,
    }
}

/// The program address at which the next step acts, or PC where the processor sleeps in it.
pub fn next_address(board: &RunBoard) -> u16
    ensures { result ≡ (begun ((signals board.now).lines (steps board.now)) (state board.now)).pc }
{
    match board.acting() {
        Some(address) => address,
        None => board.pc(),
    }
}
