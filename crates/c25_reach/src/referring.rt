//! Proposals of `ref`: numbers of instructions that may be addresses of the image.

use crate::places::{Places, What};
use crate::standing::Standing;
use c25_isa::show;
use c25_layout::hint::Hint;
use c25_meaning_common::no_memory::NoMemory;
use c25_meaning_instructions::insn::Insn;
use c25_meaning_instructions::mnemonic::LongName;
use std::alloc::Global;

/// The long number of an instruction that may be an address: it goes into a register, or without a shift into the
/// accumulator.
fn number_of(insn: &Insn) -> Option<u16> {
    match *insn {
        Insn::Long(LongName::Lrlk, number, _) => Some(number),
        Insn::Long(_, number, 0) => Some(number),
        _ => None,
    }
}

/// Whether a hint says that the number of the instruction at an address is none.
fn is_decided(hints: &[Hint<String>], address: u16) -> bool {
    for hint in hints {
        match hint {
            Hint::Number { address: at } if *at == address => return true,
            _ => {}
        }
    }
    false
}

/// Whether an address of the image has a name, or the one after it.
fn is_near_name(places: &Places, address: u16) -> bool {
    if places.at(address).what == What::Nothing {
        return false;
    }
    let after = address.checked_add(1).unwrap_or(address);
    places.at(address).named || places.at(after).named
}

/// Whether the number of an instruction may be an address.
fn may_refer(places: &Places, hints: &[Hint<String>], here: &Standing) -> bool {
    if here.named || is_decided(hints, here.address) {
        return false;
    }
    match number_of(&here.insn) {
        None => false,
        Some(number) => is_near_name(places, number),
    }
}

/// Adds a proposal for each number that may be an address.
pub(crate) fn add_references(
    alloc: Global,
    lines: &mut Vec<String>,
    list: &[Standing],
    places: &Places,
    hints: &[Hint<String>],
) -> Result<(), NoMemory> {
    for here in list {
        if may_refer(places, hints, here) {
            let (address, text) = (here.address, show(alloc, &here.insn)?);
            lines.push(format!(in alloc; "ref {address:04X} ; {text}")?)?;
        }
    }
    Ok(())
}
