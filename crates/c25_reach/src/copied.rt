//! Proposals of `run`: words that `RPTK` and `BLKP` copy to block B0.

use crate::standing::{Standing, before};
use c25_layout::hint::Hint;
use c25_meaning_common::no_memory::NoMemory;
use c25_meaning_instructions::insn::{Addr, Change, Insn};
use c25_meaning_instructions::mnemonic::{LongMemName, LongName, PlainName, ShortName};
use std::alloc::Global;

/// The address of block B0 as data memory, and the address after it (SPRU014, "Memory Maps").
const BLOCK: u16 = 0x200;

const BLOCK_END: u16 = 0x300;

/// The address of block B0 as program memory.
const PROGRAM_BLOCK: u16 = 0xFF00;

/// What is known of the auxiliary registers on the way through instructions.
#[derive(Clone, Copy)]
struct Registers {
    values: [Option<u16>; 8],
    /// The number of the current one.
    current: Option<u16>,
}

/// Nothing is known.
const UNKNOWN: Registers = Registers {
    values: [None; 8],
    current: None,
};

/// The number of the register that is current after an instruction, where that is given.
fn next_register(insn: &Insn) -> Option<u16> {
    match *insn {
        Insn::Mem(_, addr)
        | Insn::Shifted(_, addr, _)
        | Insn::ArMem(_, _, addr)
        | Insn::Port(_, addr, _)
        | Insn::Bit(_, addr, _)
        | Insn::LongMem(_, _, addr) => match addr {
            Addr::Indirect(_, next) => next,
            Addr::Direct(_) => None,
        },
        Insn::Jump(_, _, _, next) => next,
        _ => None,
    }
}

/// The register that an instruction loads with a number, and that number.
fn loaded_register(insn: &Insn) -> Option<(u16, u16)> {
    match *insn {
        Insn::Long(LongName::Lrlk, number, register) => Some((register, number)),
        Insn::Short(ShortName::Lark, register, number) => {
            if number < 0 {
                None
            } else {
                Some((register, number as u16))
            }
        }
        _ => None,
    }
}

impl Registers {
    /// What is known after an instruction.
    fn after(self, insn: &Insn) -> Registers {
        let mut values = self.values;
        if let Some((register, number)) = loaded_register(insn) {
            if let Some(value) = values.get_mut(usize::from(register)) {
                *value = Some(number);
            }
        }
        let current = match next_register(insn) {
            None => self.current,
            Some(next) => Some(next),
        };
        Registers { values, current }
    }

    /// The value of the current register, where it is known.
    fn value(&self) -> Option<u16> {
        let current = self.current?;
        *self.values.get(usize::from(current))?
    }
}

/// Words that are copied to block B0.
#[derive(Clone, Copy)]
struct Copied {
    address: u16,
    count: u16,
    run: u16,
}

/// How often the instruction after `RPTK` is done.
fn repetitions(insn: &Insn) -> Option<u16> {
    match *insn {
        Insn::Short(ShortName::Rptk, _, number) => {
            if number < 0 {
                None
            } else {
                (number as u16).checked_add(1)
            }
        }
        _ => None,
    }
}

/// The address that `BLKP w,*+` copies from.
fn copied_from(insn: &Insn) -> Option<u16> {
    match *insn {
        Insn::LongMem(LongMemName::Blkp, address, Addr::Indirect(Change::Increment, _)) => Some(
            address,
        ),
        _ => None,
    }
}

/// The words that an instruction copies to block B0, where it does.
fn copy_at(list: &[Standing], index: usize, registers: &Registers) -> Option<Copied> {
    let address = copied_from(&list.get(index)?.insn)?;
    let count = repetitions(&before(list, index, 1)?.insn)?;
    let to = registers.value()?;
    if to < BLOCK || to >= BLOCK_END {
        return None;
    }
    Some(Copied {
        address,
        count,
        run: PROGRAM_BLOCK + (to - BLOCK),
    })
}

/// Whether a program may go to block B0: it jumps there, or to an address that it has worked out.
fn may_go_there(list: &[Standing]) -> bool {
    for here in list {
        match here.insn {
            Insn::Jump(_, target, _, _) if !here.named && target >= PROGRAM_BLOCK => return true,
            Insn::Plain(PlainName::Bacc, _) | Insn::Plain(PlainName::Cala, _) => return true,
            _ => {}
        }
    }
    false
}

/// Whether a hint says where the words from an address on run.
fn is_decided(hints: &[Hint<String>], address: u16) -> bool {
    for hint in hints {
        match hint {
            Hint::Run { address: at, .. } if *at == address => return true,
            _ => {}
        }
    }
    false
}

/// Adds a proposal for each copy of words to block B0.
fn add_each(
    alloc: Global,
    lines: &mut Vec<String>,
    list: &[Standing],
    hints: &[Hint<String>],
) -> Result<(), NoMemory> {
    let mut registers = UNKNOWN;
    for (index, here) in list.iter().enumerate() {
        if !here.goes_on {
            registers = UNKNOWN;
        }
        if let Some(copy) = copy_at(list, index, &registers) {
            if !is_decided(hints, copy.address) {
                let Copied {
                    address,
                    count,
                    run,
                } = copy;
                lines.push(format!(in alloc;
                    "run {address:04X} {count:X} {run:04X} ; copied to block B0 by RPTK and BLKP"
                )?)?;
            }
        }
        registers = registers.after(&here.insn);
    }
    Ok(())
}

/// Adds a proposal for each copy of words to block B0, where the program may go there.
pub(crate) fn add_copies(
    alloc: Global,
    lines: &mut Vec<String>,
    list: &[Standing],
    hints: &[Hint<String>],
) -> Result<(), NoMemory> {
    if may_go_there(list) {
        add_each(alloc, lines, list, hints)?;
    }
    Ok(())
}
