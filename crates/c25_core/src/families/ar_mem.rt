//! The instructions with an auxiliary register and an operand in memory.

ghost use Rattle.std.specs.Prelude.{◌≡◌, ◌<◌};
ghost use Rattle.c25_meaning_processor.specs.Effect.{ar_mem_effect, operand_word, to};
ghost use Rattle.c25_meaning_processor.specs.Operand.{address_of};
ghost use Rattle.c25_meaning_instructions.specs.Table.{AddrInRange};

use crate::bus::Bus;
use crate::memory::{read_data, write_data};
use crate::operand::{address_of, settle};
use c25_meaning_instructions::insn::Addr;
use c25_meaning_instructions::mnemonic::ArMemName;
use c25_meaning_processor::registers::Registers;

/// `LAR` or `SAR`, with the change of its operand. The change comes before the load, so that `LAR` of the
/// current register ends with the loaded word.
#[inline(always)]
pub fn ar_mem<B: Bus>(
    registers: &mut Registers,
    bus: &mut B,
    name: ArMemName,
    register: u16,
    operand: &Addr,
)
    requires register { register < 8 }
    requires operand { AddrInRange operand.now }
    ensures after { ar_mem_effect name register operand.now
        (operand_word operand.now registers.old (B.world bus.old))
        (address_of operand.now registers.old) registers.old (B.world bus.old)
        ≡ to registers.new (B.world bus.new) }
    ensures failures { B.failures bus.new ≡ B.failures bus.old }
{
    let cnf = registers.cnf;
    let address = address_of(operand, registers);
    let index = usize::from(register);
    let loaded = read_data(bus, cnf, address);
    let stored = registers.ar[index];
    let arp = registers.arp;
    settle(registers, operand, arp);
    match name {
        ArMemName::Lar => registers.ar[index] = loaded,
        ArMemName::Sar => write_data(bus, registers.cnf, address, stored),
    }
}
