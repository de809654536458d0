//! Memory as the processor reads and writes it, with block B0 (SPRU014, "Memory Maps").

ghost use Rattle.std.specs.Prelude.{◌≡◌, ◌+◌, ◌%◌, ◌^◌, ◌&&◌, false};
ghost use Rattle.c25_meaning_processor.specs.State.{data_at, with_data, program_at, with_program, in_b0, in_program_b0};
ghost use Rattle.c25_meaning_processor.specs.Effect.{store_program};
ghost use Rattle.c25_core.specs.Met.{IsMet};

use crate::bus::{Bus, Halt};
use c25_meaning_processor::registers::Registers;
use c25_meaning_processor::stop::Stop;

/// Whether a data address is one of B0.
fn is_in_b0(address: u16) -> bool
    ensures { result ≡ in_b0 address }
{
    0x200 <= address && address < 0x300
}

/// Whether a program address is one of those at which block B0 is seen under CNF 1.
fn is_in_program_b0(address: u16) -> bool
    ensures { result ≡ in_program_b0 address }
{
    0xFF00 <= address
}

/// A data word. Under CNF 1 a word of B0 reads 0.
#[tactic(auto, unfolding(c25_meaning_processor::specs::State::data_at))]
pub fn read_data<B: Bus>(bus: &B, cnf: bool, address: u16) -> u16
    ensures { result ≡ data_at cnf (B.world bus.now) address }
{
    if cnf && is_in_b0(address) {
        return 0;
    }
    bus.data(address)
}

/// Writes a data word. Under CNF 1 a write to B0 is lost.
#[tactic(auto, unfolding(c25_meaning_processor::specs::State::with_data))]
pub fn write_data<B: Bus>(bus: &mut B, cnf: bool, address: u16, word: u16)
    ensures after { B.world bus.new ≡ with_data cnf (B.world bus.old) address word }
    ensures failures { B.failures bus.new ≡ B.failures bus.old }
{
    if cnf && is_in_b0(address) {
        return;
    }
    bus.set_data(address, word)
}

/// Whether under this CNF a data address or the next one is one of B0.
#[inline(always)]
fn touches_b0(cnf: bool, address: u16) -> bool
    ensures here { result ≡ false → (cnf && in_b0 address) ≡ false }
    ensures next { result ≡ false → (cnf && in_b0 ((address + 1) % 2 ^ 16)) ≡ false }
{
    cnf && 0x1FF <= address && address < 0x300
}

/// Copies a data word to the next address, and gives the word. Where neither address is in block B0, one test
/// finds it.
#[inline(always)]
#[tactic(auto, unfolding(c25_meaning_processor::specs::State::data_at, c25_meaning_processor::specs::State::with_data))]
pub fn move_up<B: Bus>(bus: &mut B, cnf: bool, address: u16) -> u16
    ensures word { result ≡ data_at cnf (B.world bus.old) address }
    ensures after { B.world bus.new ≡ with_data cnf (B.world bus.old) ((address + 1) % 2 ^ 16)
        (data_at cnf (B.world bus.old) address) }
    ensures failures { B.failures bus.new ≡ B.failures bus.old }
{
    if touches_b0(cnf, address) {
        let word = read_data(bus, cnf, address);
        write_data(bus, cnf, address.wrapping_add(1), word);
        return word;
    }
    let word = bus.data(address);
    bus.set_data(address.wrapping_add(1), word);
    word
}

/// A program word. Under CNF 1 the highest 256 addresses are those of B0.
#[tactic(auto, unfolding(c25_meaning_processor::specs::State::program_at))]
pub fn read_program<B: Bus>(bus: &B, cnf: bool, address: u16) -> u16
    ensures { result ≡ program_at cnf (B.world bus.now) address }
{
    if cnf && is_in_program_b0(address) {
        return bus.data(address - 0xFF00 + 0x200);
    }
    bus.program(address)
}

/// Writes a program word. Under CNF 1 the highest 256 addresses are those of B0.
#[tactic(auto, unfolding(c25_meaning_processor::specs::State::with_program))]
fn write_program<B: Bus>(bus: &mut B, cnf: bool, address: u16, word: u16)
    ensures after { B.world bus.new ≡ with_program cnf (B.world bus.old) address word }
    ensures failures { B.failures bus.new ≡ B.failures bus.old }
{
    if cnf && is_in_program_b0(address) {
        return bus.set_data(address - 0xFF00 + 0x200, word);
    }
    bus.set_program(address, word)
}

/// Writes a program word. Where the word is a loaded word of an instruction, nothing is written: `CodeWrite`.
/// The words of block B0, seen as program memory under CNF 1, may be written.
pub fn store_program<B: Bus>(
    registers: &Registers,
    bus: &mut B,
    address: u16,
    word: u16,
) -> Result<(), Halt>
    ensures { IsMet (store_program address word registers.now (B.world bus.old))
        result registers.now (B.world bus.old) (B.world bus.new)
        (B.failures bus.old) (B.failures bus.new) }
{
    if bus.is_code(address) && !(registers.cnf && is_in_program_b0(address)) {
        return Err(Halt::Stop(Stop::CodeWrite));
    }
    write_program(bus, registers.cnf, address, word);
    Ok(())
}
