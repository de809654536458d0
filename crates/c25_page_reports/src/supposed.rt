//! What is supposed of a program's runs: the interrupt lines that IMR lets through, and where BACC and CALA go. Nothing is
//! claimed of it.

use crate::operands::{PageOperand, relocated_value, section_page};
use c25_map::Map;
use c25_meaning_common::no_memory::NoMemory;
use c25_meaning_common::relocation::RelocationKind;
use c25_meaning_instructions::insn::{Addr, Insn};
use c25_meaning_instructions::mnemonic::{LongName, PlainName, ShortName};
use c25_meaning_objects::object::Relocation;
use c25_module::{Module, Parts};
use c25_pages::{Program, Written, writes};
use c25_symbols::entries::part_of;
use c25_symbols::parts::NextStarts;
use std::alloc::Global;

/// The data address of IMR.
const IMR: u16 = 4;

/// The bits of all interrupt lines.
const ALL_LINES: u16 = 7;

/// Whether an instruction writes the word of this number of a data page, by a direct operand.
fn writes_low(insn: &Insn, low: u16) -> bool {
    match writes(insn) {
        Written::Operand(Addr::Direct(operand)) | Written::Status(Addr::Direct(operand)) => {
            operand == low
        }
        _ => false,
    }
}

/// The interrupt lines of the constant that an instruction loads into the accumulator; all, if it loads none.
fn lines_loaded(insn: &Option<Insn>) -> u16 {
    match insn {
        Some(Insn::Short(ShortName::Lack, _, number)) => number.cast_unsigned() & ALL_LINES,
        Some(Insn::Long(LongName::Lalk, word, 0)) => *word & ALL_LINES,
        _ => ALL_LINES,
    }
}

/// The interrupt lines that IMR is supposed to let through: those of each constant that is loaded just before it is
/// stored into word 4 by a direct operand that names no other word, and all where something else is stored there.
pub(crate) fn interrupt_lines(program: &Program, operands: &[PageOperand]) -> u16 {
    let mut lines = 0;
    let mut before = None;
    for statement in &program.plain {
        let is_named = |operand: &PageOperand| operand.run == statement.address;
        if writes_low(&statement.insn, IMR) && !operands.iter().any(is_named) {
            lines = lines | lines_loaded(&before);
        }
        before = Some(statement.insn);
    }
    for statement in &program.copied {
        if writes_low(&statement.insn, IMR) {
            lines = ALL_LINES;
        }
    }
    lines
}

/// Whether an instruction goes to the address in the accumulator.
pub(crate) fn goes_by_accumulator(insn: &Insn) -> bool {
    match insn {
        Insn::Plain(PlainName::Bacc | PlainName::Cala, _) => true,
        _ => false,
    }
}

/// Whether a program goes to addresses in the accumulator.
fn computes_targets(program: &Program) -> bool {
    program
        .plain
        .iter()
        .any(|statement| goes_by_accumulator(&statement.insn))
        || program
            .copied
            .iter()
            .any(|statement| goes_by_accumulator(&statement.insn))
}

/// Whether the word at an address is the second one of a branch or a call.
fn is_target(program: &Program, address: u16) -> bool {
    match program.statement_at(address.wrapping_sub(1)) {
        Some(Insn::Jump(_, _, _, _)) => true,
        _ => false,
    }
}

/// Whether a relocation fills a whole word that is no target of a branch or a call.
fn names_address(
    program: &Program,
    map: &Map,
    next: &NextStarts<'_>,
    owner: &Parts,
    relocation: &Relocation,
) -> bool {
    let part = part_of(next, owner, relocation.section);
    let address = part.run.wrapping_add(u32::from(relocation.offset)) % 65_536;
    if section_page(&map.sections, owner, relocation.section) == 0
        && is_target(program, address as u16)
    {
        return false;
    }
    relocation.kind == RelocationKind::Word16
}

/// Appends the addresses of statements that a module names, other than as targets of branches and calls.
fn push_landings(
    program: &Program,
    map: &Map,
    next: &NextStarts<'_>,
    owner: &Parts,
    landings: &mut Vec<u16>,
) -> Result<(), NoMemory> {
    for relocation in &owner.relocations {
        if names_address(program, map, next, owner, relocation) {
            let value = relocated_value(map, next, owner, relocation) % 65_536;
            let address = value as u16;
            if program.statement_at(address).is_some() && !landings.contains(&address) {
                landings.push(address)?;
            }
        }
    }
    Ok(())
}

/// The addresses to which BACC and CALA are supposed to go: those of statements that the program names, other than as
/// targets of branches and calls. None where it has no BACC and no CALA.
pub(crate) fn landings_of(
    alloc: Global,
    program: &Program,
    modules: &[Module],
    map: &Map,
) -> Result<Vec<u16>, NoMemory> {
    let mut landings = Vec::new(alloc);
    if !computes_targets(program) {
        return Ok(landings);
    }
    let mut next = NextStarts::new(alloc, &map.sections)?;
    for module in modules {
        let owner = module.parts();
        push_landings(program, map, &next, owner, &mut landings)?;
        next.pass_all(&owner.sections)?;
    }
    Ok(landings)
}
