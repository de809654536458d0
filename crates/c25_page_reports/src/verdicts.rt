//! What is said of direct operands, by a table of what is known.

ghost use Rattle.std.specs.Prelude.{◌≡◌, ◌++◌, ◌/◌, ◌||◌, Some, None, IfOk, OnOk};
ghost use Rattle.std.specs.List.{list_any};
ghost use Rattle.std.specs.Option.{option_map_or};
ghost use Rattle.c25_pages.specs.Program.{statements_of};
ghost use Rattle.c25_page_reports.specs.Verdicts.{insn_at, is_elsewhere, is_unknown, operand_fault, operand_report, operand_reports, page_fault, saves_status, saves_status_at, status_fault};

use crate::operands::PageOperand;
use c25_meaning_common::no_memory::NoMemory;
use c25_meaning_instructions::insn::{Addr, Insn};
use c25_meaning_instructions::mnemonic::MemName;
use c25_pages::{Program, Row};
use std::alloc::Global;

/// What is wrong with a direct operand.
#[derive(Clone, Copy, PartialEq, Debug)]
pub enum OperandFault {
    /// DP is another page than that of the word that is meant, at least where the statement is reached in one way.
    WrongPage,
    /// DP is not known where the statement is reached in one way, and nowhere another page.
    PageUnsure,
}

/// A direct operand with which something is wrong.
#[derive(Clone, Copy, PartialEq, Debug)]
pub struct OperandReport {
    /// What is wrong with it.
    pub fault: OperandFault,
    /// The operand.
    pub operand: PageOperand,
}

/// Whether an instruction is SST or SST1 with a direct operand, which is on data page 0 whatever DP is.
pub(crate) fn saves_status(insn: &Insn) -> bool
    ensures { result ≡ saves_status insn.now }
{
    match insn {
        Insn::Mem(MemName::Sst | MemName::Sst1, Addr::Direct(_)) => true,
        _ => false,
    }
}

/// The instruction of the statement that runs at an address: of one that stands there, or else of one that runs there in
/// block B0.
fn insn_at(program: &Program, address: u16) -> Option<Insn>
    ensures { result ≡ insn_at (statements_of program.now) address }
{
    match program.statement_at(address) {
        Some(insn) => Some(insn),
        None => program.copied_at(address),
    }
}

/// Whether SST or SST1 with a direct operand runs at an address.
pub(crate) fn saves_status_at(program: &Program, address: u16) -> bool
    ensures { result ≡ saves_status_at (statements_of program.now) address }
{
    match insn_at(program, address) {
        Some(insn) => saves_status(&insn),
        None => false,
    }
}

/// Whether a row is of an address, and DP is known there to be another page.
pub(crate) fn is_elsewhere(row: &Row, address: u16, page: u16) -> bool
    ensures { result ≡ is_elsewhere address page row.now }
{
    if row.address != address {
        return false;
    }
    match row.known.page {
        Some(known) => known != page,
        None => false,
    }
}

/// Whether a row is of an address, and DP is not known there.
fn is_unknown(row: &Row, address: u16) -> bool
    ensures { result ≡ is_unknown address row.now }
{
    if row.address != address {
        return false;
    }
    match row.known.page {
        Some(_) => false,
        None => true,
    }
}

/// Whether a row of an address says that DP is another page.
fn is_somewhere_else(rows: &[Row], address: u16, page: u16) -> bool
    ensures { result ≡ list_any (is_elsewhere address page) rows.now }
{
    rows.iter().any(|row| is_elsewhere(row, address, page))
}

/// Whether a row of an address does not say what DP is.
fn is_somewhere_unknown(rows: &[Row], address: u16) -> bool
    ensures { result ≡ list_any (is_unknown address) rows.now }
{
    rows.iter().any(|row| is_unknown(row, address))
}

/// Whether a row is of an address, and does not say that DP is a page.
fn is_other(row: &Row, address: u16, page: u16) -> bool
    ensures { result ≡ (is_elsewhere address page row.now || is_unknown address row.now) }
{
    is_elsewhere(row, address, page) || is_unknown(row, address)
}

/// Whether a row of an address does not say that DP is a page.
fn is_somewhere_other(rows: &[Row], address: u16, page: u16) -> bool
    ensures { result ≡ list_any (λ row. is_elsewhere address page row || is_unknown address row) rows.now }
{
    rows.iter().any(|row| is_other(row, address, page))
}

/// What is wrong with a direct operand where rows say what is known of DP. Most are right, which one look at the rows shows.
fn page_fault(rows: &[Row], operand: PageOperand) -> Option<OperandFault>
    ensures { result ≡ page_fault rows.now operand }
{
    if !is_somewhere_other(rows, operand.run, operand.word / 128) {
        return None;
    }
    if is_somewhere_else(rows, operand.run, operand.word / 128) {
        return Some(OperandFault::WrongPage);
    }
    if is_somewhere_unknown(rows, operand.run) {
        return Some(OperandFault::PageUnsure);
    }
    None
}

/// What is wrong with the direct operand of SST or SST1.
fn status_fault(operand: PageOperand) -> Option<OperandFault>
    ensures { result ≡ status_fault operand }
{
    if operand.word / 128 == 0 {
        None
    } else {
        Some(OperandFault::WrongPage)
    }
}

/// What is wrong with a direct operand of a program.
fn operand_fault(program: &Program, rows: &[Row], operand: PageOperand) -> Option<OperandFault>
    ensures { result ≡ operand_fault (statements_of program.now) rows.now operand }
{
    if saves_status_at(program, operand.run) {
        status_fault(operand)
    } else {
        page_fault(rows, operand)
    }
}

/// Appends the report of a direct operand, if something is wrong with it.
fn push_report(
    program: &Program,
    rows: &[Row],
    operand: PageOperand,
    reports: &mut Vec<OperandReport>,
) -> Result<(), NoMemory>
    ensures { OnOk result (reports.new.items ≡ reports.old.items ++ operand_report (statements_of program.now) rows.now operand) }
{
    match operand_fault(program, rows, operand) {
        Some(fault) => {
            reports.push(OperandReport { fault, operand })?;
            Ok(())
        }
        None => Ok(()),
    }
}

/// The reports of direct operands, in their order.
pub fn operand_reports(
    alloc: Global,
    program: &Program,
    rows: &[Row],
    operands: &[PageOperand],
) -> Result<Vec<OperandReport>, NoMemory>
    ensures { IfOk result (λ list. list.items ≡ operand_reports (statements_of program.now) rows.now operands.now) }
{
    let mut reports = Vec::new(alloc);
    for operand in operands {
        push_report(program, rows, *operand, &mut reports)?;
    }
    Ok(reports)
}
