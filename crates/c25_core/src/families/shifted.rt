//! The instructions with an operand in memory and a shift.

ghost use Rattle.std.specs.Prelude.{◌≡◌, ◌<◌};
ghost use Rattle.c25_meaning_processor.specs.Effect.{operand_word, settle, shifted_effect, to};
ghost use Rattle.c25_meaning_processor.specs.Operand.{address_of};
ghost use Rattle.c25_meaning_processor.specs.State.{data_at};
ghost use Rattle.c25_meaning_instructions.specs.Table.{AddrInRange, shift_limit};

use crate::accumulator::{become_scaled, high_half, low_half, minus_scaled, plus_scaled};
use crate::bus::Bus;
use crate::memory::{read_data, write_data};
use crate::operand::{address_of, settle};
use c25_alu::moved_left;
use c25_meaning_instructions::insn::Addr;
use c25_meaning_instructions::mnemonic::ShiftedName;
use c25_meaning_processor::registers::Registers;

/// Runs an instruction of this family with its operand at this address, without the operand's change.
#[inline(always)]
fn act<B: Bus>(
    registers: &mut Registers,
    bus: &mut B,
    cnf: bool,
    name: ShiftedName,
    address: u16,
    shift: u16,
)
    requires shift { shift < shift_limit name }
    requires cnf { registers.old.cnf ≡ cnf }
    ensures after { shifted_effect name (data_at registers.old.cnf (B.world bus.old) address)
        address shift registers.old (B.world bus.old)
        ≡ to registers.new (B.world bus.new) }
    ensures failures { B.failures bus.new ≡ B.failures bus.old }
{
    let word = read_data(bus, cnf, address);
    let value = registers.acc.value;
    match name {
        ShiftedName::Add => plus_scaled(registers, word, shift),
        ShiftedName::Sub => minus_scaled(registers, word, shift),
        ShiftedName::Lac => become_scaled(registers, word, shift),
        ShiftedName::Sacl => write_data(bus, cnf, address, low_half(moved_left(value, shift))),
        ShiftedName::Sach => write_data(bus, cnf, address, high_half(moved_left(value, shift))),
    }
}

/// Runs an instruction of this family with its operand. `cnf` is CNF, which the caller knows.
#[inline(always)]
pub fn shifted_under<B: Bus>(
    registers: &mut Registers,
    bus: &mut B,
    cnf: bool,
    name: ShiftedName,
    operand: &Addr,
    shift: u16,
)
    requires shift { shift < shift_limit name }
    requires operand { AddrInRange operand.now }
    requires cnf { registers.old.cnf ≡ cnf }
    ensures after { settle operand.now registers.old.arp (shifted_effect name
        (operand_word operand.now registers.old (B.world bus.old))
        (address_of operand.now registers.old) shift registers.old (B.world bus.old))
        ≡ to registers.new (B.world bus.new) }
    ensures failures { B.failures bus.new ≡ B.failures bus.old }
{
    let arp = registers.arp;
    let address = address_of(operand, registers);
    act(registers, bus, cnf, name, address, shift);
    settle(registers, operand, arp);
}

/// Runs an instruction of this family with its operand.
#[inline(always)]
pub fn shifted<B: Bus>(
    registers: &mut Registers,
    bus: &mut B,
    name: ShiftedName,
    operand: &Addr,
    shift: u16,
)
    requires shift { shift < shift_limit name }
    requires operand { AddrInRange operand.now }
    ensures after { settle operand.now registers.old.arp (shifted_effect name
        (operand_word operand.now registers.old (B.world bus.old))
        (address_of operand.now registers.old) shift registers.old (B.world bus.old))
        ≡ to registers.new (B.world bus.new) }
    ensures failures { B.failures bus.new ≡ B.failures bus.old }
{
    let cnf = registers.cnf;
    shifted_under(registers, bus, cnf, name, operand, shift);
}
