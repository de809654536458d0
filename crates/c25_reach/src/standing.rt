//! The instructions of the source of an image, in their order.

use c25_isa::size_of;
use c25_layout::layout::{Item, Part, Row};
use c25_meaning_common::no_memory::NoMemory;
use c25_meaning_instructions::insn::Insn;
use c25_meaning_instructions::mnemonic::{JumpName, PlainName};
use std::alloc::Global;

/// An instruction of the source.
#[derive(Clone, Copy)]
pub(crate) struct Standing {
    pub address: u16,
    pub insn: Insn,
    /// Whether a name stands in place of its number.
    pub named: bool,
    /// Whether the flow comes to it from the instruction before it in the list, which stands directly before it.
    pub goes_on: bool,
}

/// Whether the flow may go on at the next instruction.
fn falls_through(insn: &Insn) -> bool {
    match *insn {
        Insn::Jump(JumpName::B, _, _, _) => false,
        Insn::Plain(PlainName::Ret, _) | Insn::Plain(PlainName::Bacc, _) => false,
        _ => true,
    }
}

/// Whether the flow comes to an address from the last instruction of a list.
fn goes_on_at(list: &[Standing], address: u16) -> bool {
    match list.last() {
        None => false,
        Some(before) => {
            let next = before.address.checked_add(size_of(before.insn.mnemonic()));
            next == Some(address) && falls_through(&before.insn)
        }
    }
}

/// Adds the instruction of a row, if it is one.
fn add_row(list: &mut Vec<Standing>, row: &Row) -> Result<(), NoMemory> {
    let (insn, named) = match &row.item {
        Item::Plain(insn) => (*insn, false),
        Item::Named(insn, _) => (*insn, true),
        Item::Words(_) | Item::Address(_, _) => return Ok(()),
    };
    let goes_on = goes_on_at(list, row.address);
    list.push(Standing {
        address: row.address,
        insn,
        named,
        goes_on,
    })?;
    Ok(())
}

/// Adds the instructions of rows.
fn add_rows(list: &mut Vec<Standing>, rows: &[Row]) -> Result<(), NoMemory> {
    for row in rows {
        add_row(list, row)?;
    }
    Ok(())
}

/// The instructions of parts.
pub(crate) fn instructions_of(alloc: Global, parts: &[Part]) -> Result<Vec<Standing>, NoMemory> {
    let mut list = Vec::new(alloc);
    for part in parts {
        add_rows(&mut list, &part.rows)?;
    }
    Ok(list)
}

/// The instruction so many before one in a list, if the flow comes from it to that one, instruction after instruction.
pub(crate) fn before(list: &[Standing], index: usize, back: usize) -> Option<Standing> {
    for step in 0..back {
        let here = list.get(index.checked_sub(step)?)?;
        if !here.goes_on {
            return None;
        }
    }
    list.get(index.checked_sub(back)?).copied()
}
