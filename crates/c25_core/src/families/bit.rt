//! The instruction with a bit code.

ghost use Rattle.std.specs.Prelude.{◌≡◌};
ghost use Rattle.c25_meaning_processor.specs.Effect.{bit_effect, operand_word};
ghost use Rattle.c25_meaning_processor.specs.Operand.{after_operand};
ghost use Rattle.c25_meaning_instructions.specs.Table.{AddrInRange};

use crate::accumulator::bit_of;
use crate::bus::Bus;
use crate::memory::read_data;
use crate::operand::{address_of, settle};
use c25_meaning_instructions::insn::Addr;
use c25_meaning_processor::registers::Registers;

/// `BIT`, with its operand.
pub fn test_bit<B: Bus>(registers: &mut Registers, bus: &B, operand: &Addr, code: u16)
    requires { AddrInRange operand.now }
    ensures { registers.new ≡ after_operand operand.now registers.old.arp
        (bit_effect (operand_word operand.now registers.old (B.world bus.now)) code registers.old) }
{
    let arp = registers.arp;
    let word = read_data(bus, registers.cnf, address_of(operand, registers));
    registers.tc = bit_of(word, code);
    settle(registers, operand, arp);
}
