//! The instructions with a port.

ghost use Rattle.std.specs.Prelude.{◌≡◌, OnErr};
ghost use Rattle.c25_meaning_processor.specs.declared.registers.Registers.{Registers};
ghost use Rattle.c25_meaning_processor.specs.Effect.{operand_word, port_effect, settle};
ghost use Rattle.c25_meaning_processor.specs.Operand.{address_of};
ghost use Rattle.c25_meaning_processor.specs.State.{data_at};
ghost use Rattle.c25_meaning_processor.specs.Step.{advanced};
ghost use Rattle.c25_meaning_instructions.specs.Table.{AddrInRange};
ghost use Rattle.c25_core.specs.Met.{IsMet};

use crate::advance::advance;
use crate::bus::{Bus, Halt};
use crate::memory::{read_data, write_data};
use crate::operand::{address_of, settle};
use c25_meaning_instructions::insn::Addr;
use c25_meaning_instructions::mnemonic::PortName;
use c25_meaning_processor::registers::Registers;
use c25_meaning_processor::stop::Stop;

/// Runs `IN` or `OUT` with its operand at this address, without the operand's change. PC may stand before or
/// after the instruction: of the registers only CNF is read.
#[inline(always)]
fn act<B: Bus>(
    registers: &Registers,
    bus: &mut B,
    name: PortName,
    address: u16,
    number: u16,
) -> Result<(), Halt>
    ensures { (any : Registers) → any.cnf ≡ registers.now.cnf → IsMet
        (port_effect name (data_at any.cnf (B.world bus.old) address) address number
        any (B.world bus.old))
        result any (B.world bus.old) (B.world bus.new)
        (B.failures bus.old) (B.failures bus.new) }
{
    match name {
        PortName::In => match bus.input(number) {
            Some(word) => {
                write_data(bus, registers.cnf, address, word);
                Ok(())
            }
            None => Err(Halt::Stop(Stop::PortDry)),
        },
        PortName::Out => {
            let word = read_data(bus, registers.cnf, address);
            match bus.output(number, word) {
                Ok(()) => Ok(()),
                Err(_) => Err(Halt::Sink),
            }
        }
    }
}

/// Runs `IN` or `OUT` with its operand. PC moves past it or, in a repeat, the repetition is counted. Where
/// `IN` finds no sample (`PortDry`) or the sink fails at `OUT`, the registers stay as they are.
#[inline(always)]
pub fn port<B: Bus>(
    registers: &mut Registers,
    bus: &mut B,
    name: PortName,
    operand: &Addr,
    number: u16,
) -> Result<(), Halt>
    requires { AddrInRange operand.now }
    ensures met { IsMet (settle operand.now (advanced 1 registers.old).arp (port_effect name
        (operand_word operand.now (advanced 1 registers.old) (B.world bus.old))
        (address_of operand.now (advanced 1 registers.old)) number (advanced 1 registers.old)
        (B.world bus.old)))
        result registers.new (B.world bus.old) (B.world bus.new)
        (B.failures bus.old) (B.failures bus.new) }
    ensures halt { OnErr result (registers.new ≡ registers.old) }
{
    let address = address_of(operand, registers);
    match act(registers, bus, name, address, number) {
        Ok(()) => {
            advance(registers, 1);
            let arp = registers.arp;
            settle(registers, operand, arp);
            Ok(())
        }
        Err(halt) => Err(halt),
    }
}
