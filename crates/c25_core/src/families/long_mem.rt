//! The instructions with a second word and an operand in memory.

ghost use Rattle.std.specs.Prelude.{◌≡◌, ◌+◌, ◌%◌, ◌^◌};
ghost use Rattle.c25_meaning_processor.specs.Effect.{long_mem_effect, operand_word, plus_product, settle, to, word_product};
ghost use Rattle.c25_meaning_processor.specs.Operand.{address_of};
ghost use Rattle.c25_meaning_processor.specs.State.{data_at};
ghost use Rattle.c25_meaning_instructions.specs.Table.{AddrInRange};

use crate::accumulator::{plus_product, word_product};
use crate::bus::Bus;
use crate::memory::{move_up, read_data, read_program, write_data};
use crate::operand::{address_of, settle};
use c25_meaning_instructions::insn::Addr;
use c25_meaning_instructions::mnemonic::LongMemName;
use c25_meaning_processor::registers::Registers;

/// ACC += P, shifted as PM says; then T = `word` and P = `word` times `factor`, both with their signs.
#[inline(always)]
fn multiply(registers: &mut Registers, word: u16, factor: u16)
    ensures { registers.new
        ≡ record (plus_product registers.old) { t = word; p = word_product word factor } }
{
    plus_product(registers);
    registers.t = word;
    registers.p = word_product(word, factor);
}

/// Runs an instruction of this family with its operand at this address, without the operand's change; `at` is
/// the second word plus the number of repetitions that are done.
#[inline(always)]
fn act<B: Bus>(
    registers: &mut Registers,
    bus: &mut B,
    cnf: bool,
    name: LongMemName,
    at: u16,
    address: u16,
)
    requires { registers.old.cnf ≡ cnf }
    ensures after { long_mem_effect name at (data_at registers.old.cnf (B.world bus.old) address)
        address registers.old (B.world bus.old)
        ≡ to registers.new (B.world bus.new) }
    ensures failures { B.failures bus.new ≡ B.failures bus.old }
{
    match name {
        LongMemName::Macd => {
            let factor = read_program(bus, cnf, at);
            let word = move_up(bus, cnf, address);
            multiply(registers, word, factor);
        }
        LongMemName::Mac => {
            let word = read_data(bus, cnf, address);
            multiply(registers, word, read_program(bus, cnf, at));
        }
        LongMemName::Blkp => {
            let moved = read_program(bus, cnf, at);
            write_data(bus, cnf, address, moved);
        }
        LongMemName::Blkd => {
            let moved = read_data(bus, cnf, at);
            write_data(bus, cnf, address, moved);
        }
    }
}

/// Runs an instruction of this family with its second word and its operand; `repeated` repetitions are done.
/// `cnf` is CNF, which the caller knows.
#[inline(always)]
pub fn long_mem_under<B: Bus>(
    registers: &mut Registers,
    bus: &mut B,
    cnf: bool,
    name: LongMemName,
    word: u16,
    operand: &Addr,
    repeated: u16,
)
    requires operand { AddrInRange operand.now }
    requires cnf { registers.old.cnf ≡ cnf }
    ensures after { settle operand.now registers.old.arp (long_mem_effect name
        ((word + repeated) % 2 ^ 16) (operand_word operand.now registers.old (B.world bus.old))
        (address_of operand.now registers.old) registers.old (B.world bus.old))
        ≡ to registers.new (B.world bus.new) }
    ensures failures { B.failures bus.new ≡ B.failures bus.old }
{
    let arp = registers.arp;
    let address = address_of(operand, registers);
    act(
        registers,
        bus,
        cnf,
        name,
        word.wrapping_add(repeated),
        address,
    );
    settle(registers, operand, arp);
}

/// Runs an instruction of this family with its second word and its operand; `repeated` repetitions are done.
#[inline(always)]
pub fn long_mem<B: Bus>(
    registers: &mut Registers,
    bus: &mut B,
    name: LongMemName,
    word: u16,
    operand: &Addr,
    repeated: u16,
)
    requires { AddrInRange operand.now }
    ensures after { settle operand.now registers.old.arp (long_mem_effect name
        ((word + repeated) % 2 ^ 16) (operand_word operand.now registers.old (B.world bus.old))
        (address_of operand.now registers.old) registers.old (B.world bus.old))
        ≡ to registers.new (B.world bus.new) }
    ensures failures { B.failures bus.new ≡ B.failures bus.old }
{
    let cnf = registers.cnf;
    long_mem_under(registers, bus, cnf, name, word, operand, repeated);
}
