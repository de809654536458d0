//! The instructions with one word and an operand in memory. Those that run most often come first in each
//! `match`.

ghost use Rattle.std.specs.Prelude.{◌≡◌, ◌%◌, ◌^◌, ◌+◌, ◌-◌, ℕ, pos};
ghost use Rattle.c25_meaning_processor.specs.Arithmetic.{bit};
ghost use Rattle.c25_meaning_processor.specs.Effect.{become, mem_address, mem_effect, mem_operand, minus, minus_product, operand_word, plus_product, product_word, repeat, settle, to, word_product};
ghost use Rattle.c25_meaning_processor.specs.Operand.{address_of};
ghost use Rattle.c25_meaning_processor.specs.State.{World, data_at};
ghost use Rattle.c25_meaning_instructions.specs.Table.{AddrInRange};
ghost use Rattle.c25_core.specs.Groups.{IsRarer, IsRarerLoad, KeepsProgram};
ghost use Rattle.c25_core.specs.Met.{IsMet};

use crate::accumulator::{
    become_scaled, bit_of, high_half, low_half, minus_high, minus_natural, minus_product,
    minus_scaled, plus_high, plus_natural, plus_product, plus_scaled, product_word, word_product,
};
use crate::bus::{Bus, Halt};
use crate::memory::{read_data, read_program, store_program, write_data};
use crate::operand::{address_of, settle, without_next};
use crate::stack::{pop, push};
use crate::status::{load_st0, load_st1, st0, st1};
use c25_alu::{scaled, subc};
use c25_meaning_instructions::insn::Addr;
use c25_meaning_instructions::mnemonic::MemName;
use c25_meaning_processor::registers::{DataPage, Registers};

/// Begins a repeat: the next instruction runs `count` + 1 times.
pub fn repeat(registers: &mut Registers, count: u8)
    ensures { registers.new ≡ repeat count registers.old }
{
    registers.rptc = count;
    registers.repeating = true;
    registers.repeated = 0;
}

/// T = `word` and P = `word` times `word`, with their signs.
fn square(registers: &mut Registers, word: u16)
    ensures { registers.new ≡ record registers.old { t = word; p = word_product word word } }
{
    registers.t = word;
    registers.p = word_product(word, word);
}

/// P = T times `word`, both with their signs.
#[inline(always)]
fn multiply(registers: &mut Registers, word: u16)
    ensures { registers.new
        ≡ record registers.old { p = word_product registers.old.t word } }
{
    registers.p = word_product(registers.t, word);
}

/// ACC += P, shifted as PM says; T = `word`.
#[inline(always)]
fn add_and_load(registers: &mut Registers, word: u16)
    ensures { registers.new ≡ record (plus_product registers.old) { t = word } }
{
    plus_product(registers);
    registers.t = word;
}

/// ACC = P, shifted as PM says; T = `word`.
#[inline(always)]
fn take_and_load(registers: &mut Registers, word: u16)
    ensures { registers.new
        ≡ record (become (product_word registers.old) registers.old) { t = word } }
{
    registers.acc.value = product_word(registers);
    registers.t = word;
}

/// ACC -= P, shifted as PM says; T = `word`.
#[inline(always)]
fn subtract_and_load(registers: &mut Registers, word: u16)
    ensures { registers.new ≡ record (minus_product registers.old) { t = word } }
{
    minus_product(registers);
    registers.t = word;
}

/// ACC += P, shifted as PM says; then P = T times `word`.
#[inline(always)]
fn add_and_multiply(registers: &mut Registers, word: u16)
    ensures { registers.new
        ≡ record (plus_product registers.old) { p = word_product registers.old.t word } }
{
    plus_product(registers);
    multiply(registers, word);
}

/// ACC -= P, shifted as PM says; then P = T times `word`.
fn subtract_and_multiply(registers: &mut Registers, word: u16)
    ensures { registers.new
        ≡ record (minus_product registers.old) { p = word_product registers.old.t word } }
{
    minus_product(registers);
    multiply(registers, word);
}

/// ACC += P, shifted as PM says; then T = `word` and P = `word` times `word`.
fn add_and_square(registers: &mut Registers, word: u16)
    ensures { registers.new
        ≡ record (plus_product registers.old) { t = word; p = word_product word word } }
{
    plus_product(registers);
    square(registers, word);
}

/// ACC -= P, shifted as PM says; then T = `word` and P = `word` times `word`.
fn subtract_and_square(registers: &mut Registers, word: u16)
    ensures { registers.new
        ≡ record (minus_product registers.old) { t = word; p = word_product word word } }
{
    minus_product(registers);
    square(registers, word);
}

/// ACC -= `word`, and 1 more where C is 0, which is the borrow.
fn minus_with_borrow(registers: &mut Registers, word: u16)
    ensures { registers.new ≡ minus (pos (word + (1 - bit registers.old.acc.c))) registers.old }
{
    let borrow = 1 - u32::from(registers.acc.c);
    minus_natural(registers, u32::from(word) + borrow)
}

/// Runs one of the rarer instructions that leave memory as it is; `word` is the memory word.
fn load_rarely(registers: &mut Registers, name: MemName, word: u16)
    requires { IsRarerLoad name }
    ensures { (address k : ℕ) (w : World)
        → mem_effect name word address k registers.old w ≡ to registers.new w }
{
    let value = u32::from(word);
    let shift = registers.t % 16;
    match name {
        MemName::Lact => become_scaled(registers, word, shift),
        MemName::Addc => plus_natural(registers, value + u32::from(registers.acc.c)),
        MemName::Addt => plus_scaled(registers, word, shift),
        MemName::Subb => minus_with_borrow(registers, word),
        MemName::Subc => registers.acc = subc(registers.acc, scaled(registers.sxm, word, 15)),
        MemName::Subt => minus_scaled(registers, word, shift),
        MemName::Zalr => registers.acc.value = value * 0x1_0000 + 0x8000,
        MemName::Lts => subtract_and_load(registers, word),
        MemName::Lph => registers.p = value * 0x1_0000 + registers.p % 0x1_0000,
        MemName::Mpys => subtract_and_multiply(registers, word),
        MemName::Mpyu => registers.p = u32::from(registers.t) * value,
        MemName::Sqra => add_and_square(registers, word),
        MemName::Sqrs => subtract_and_square(registers, word),
        MemName::Lst => load_st0(registers, word),
        MemName::Lst1 => load_st1(registers, word),
        MemName::Bitt => registers.tc = bit_of(word, registers.t),
        MemName::Rpt => repeat(registers, (word % 256) as u8),
        _ => push(registers, word),
    }
}

/// The program address that `TBLR` and `TBLW` take: the low half of ACC plus the number of repetitions that
/// are done, in 16 bits.
fn table_address(registers: &Registers, repeated: u16) -> u16
    ensures { result ≡ (registers.now.acc.value + repeated) % 2 ^ 16 }
{
    low_half(registers.acc.value).wrapping_add(repeated)
}

/// The address of the operand: for `SST` and `SST1` a direct one is on data page 0.
fn mem_address(name: MemName, operand: &Addr, registers: &Registers) -> u16
    ensures { result ≡ mem_address name operand.now registers.now }
{
    match (name, operand) {
        (MemName::Sst, Addr::Direct(low)) | (MemName::Sst1, Addr::Direct(low)) => *low % 128,
        _ => address_of(operand, registers),
    }
}

/// The operand that changes auxiliary registers: `LST` and `LST1` ignore a next register.
fn mem_operand(name: MemName, operand: &Addr) -> Addr
    requires { AddrInRange operand.now }
    ensures value { result ≡ mem_operand name operand.now }
    ensures in_range { AddrInRange result }
{
    match name {
        MemName::Lst | MemName::Lst1 => without_next(operand),
        _ => *operand,
    }
}

/// Runs one of the rarer instructions, with its operand at this address and the word there.
#[inline(never)]
fn act_rarely<B: Bus>(
    registers: &mut Registers,
    bus: &mut B,
    name: MemName,
    word: u16,
    address: u16,
    repeated: u16,
)
    requires { IsRarer name }
    ensures after { mem_effect name word address repeated registers.old (B.world bus.old)
        ≡ to registers.new (B.world bus.new) }
    ensures failures { B.failures bus.new ≡ B.failures bus.old }
{
    let cnf = registers.cnf;
    match name {
        MemName::Tblr => {
            let moved = read_program(bus, cnf, table_address(registers, repeated));
            write_data(bus, cnf, address, moved)
        }
        MemName::Sst => write_data(bus, cnf, address, st0(registers)),
        MemName::Sst1 => write_data(bus, cnf, address, st1(registers)),
        MemName::Popd => {
            let top = pop(registers);
            write_data(bus, cnf, address, top)
        }
        MemName::Spl => write_data(bus, cnf, address, low_half(product_word(registers))),
        MemName::Sph => write_data(bus, cnf, address, high_half(product_word(registers))),
        _ => load_rarely(registers, name, word),
    }
}

/// Runs any instruction of this family but `TBLW`, with its operand at this address, without the operand's
/// change.
#[inline(always)]
fn act<B: Bus>(
    registers: &mut Registers,
    bus: &mut B,
    cnf: bool,
    name: MemName,
    address: u16,
    repeated: u16,
)
    requires name { KeepsProgram name }
    requires cnf { registers.old.cnf ≡ cnf }
    ensures after { mem_effect name (data_at registers.old.cnf (B.world bus.old) address) address
        repeated registers.old (B.world bus.old)
        ≡ to registers.new (B.world bus.new) }
    ensures failures { B.failures bus.new ≡ B.failures bus.old }
{
    let word = read_data(bus, cnf, address);
    match name {
        MemName::Zalh => registers.acc.value = u32::from(word) * 0x1_0000,
        MemName::Zals => registers.acc.value = u32::from(word),
        MemName::Addh => plus_high(registers, word),
        MemName::Adds => plus_natural(registers, u32::from(word)),
        MemName::Subh => minus_high(registers, word),
        MemName::Subs => minus_natural(registers, u32::from(word)),
        MemName::Xor => registers.acc.value ^= u32::from(word),
        MemName::Or => registers.acc.value |= u32::from(word),
        MemName::And => registers.acc.value &= u32::from(word),
        MemName::Ldp => registers.dp = DataPage::new(word % 512),
        MemName::Lt => registers.t = word,
        MemName::Lta => add_and_load(registers, word),
        MemName::Ltp => take_and_load(registers, word),
        MemName::Ltd => {
            add_and_load(registers, word);
            write_data(bus, cnf, address.wrapping_add(1), word)
        }
        MemName::Mpy => multiply(registers, word),
        MemName::Mpya => add_and_multiply(registers, word),
        MemName::Dmov => write_data(bus, cnf, address.wrapping_add(1), word),
        MemName::Mar => {}
        _ => act_rarely(registers, bus, name, word, address, repeated),
    }
}

/// Runs any instruction of this family but `TBLW`, with its operand; `repeated` repetitions are done. `cnf`
/// is CNF, which the caller knows.
#[inline(always)]
pub fn mem_under<B: Bus>(
    registers: &mut Registers,
    bus: &mut B,
    cnf: bool,
    name: MemName,
    operand: &Addr,
    repeated: u16,
)
    requires name { KeepsProgram name }
    requires operand { AddrInRange operand.now }
    requires cnf { registers.old.cnf ≡ cnf }
    ensures after { let address = mem_address name operand.now registers.old in
        let word = data_at registers.old.cnf (B.world bus.old) address in
        settle (mem_operand name operand.now) registers.old.arp
        (mem_effect name word address repeated registers.old (B.world bus.old))
        ≡ to registers.new (B.world bus.new) }
    ensures failures { B.failures bus.new ≡ B.failures bus.old }
{
    let arp = registers.arp;
    let address = mem_address(name, operand, registers);
    act(registers, bus, cnf, name, address, repeated);
    settle(registers, &mem_operand(name, operand), arp);
}

/// Runs any instruction of this family but `TBLW`, with its operand; `repeated` repetitions are done.
#[inline(always)]
pub fn mem<B: Bus>(
    registers: &mut Registers,
    bus: &mut B,
    name: MemName,
    operand: &Addr,
    repeated: u16,
)
    requires name { KeepsProgram name }
    requires operand { AddrInRange operand.now }
    ensures after { let address = mem_address name operand.now registers.old in
        let word = data_at registers.old.cnf (B.world bus.old) address in
        settle (mem_operand name operand.now) registers.old.arp
        (mem_effect name word address repeated registers.old (B.world bus.old))
        ≡ to registers.new (B.world bus.new) }
    ensures failures { B.failures bus.new ≡ B.failures bus.old }
{
    let cnf = registers.cnf;
    mem_under(registers, bus, cnf, name, operand, repeated);
}

/// Runs `TBLW` with its operand; `repeated` repetitions are done. It stops with `CodeWrite` where the program
/// word is one of an instruction.
#[tactic(auto, using(crate::proofs::Settle::IsMet_settle))]
pub fn write_table<B: Bus>(
    registers: &mut Registers,
    bus: &mut B,
    operand: &Addr,
    repeated: u16,
) -> Result<(), Halt>
    requires { AddrInRange operand.now }
    ensures { let word = operand_word operand.now registers.old (B.world bus.old) in
        let address = address_of operand.now registers.old in
        IsMet (settle operand.now registers.old.arp
        (mem_effect MemName.Tblw word address repeated registers.old (B.world bus.old)))
        result registers.new (B.world bus.old) (B.world bus.new)
        (B.failures bus.old) (B.failures bus.new) }
{
    let arp = registers.arp;
    let word = read_data(bus, registers.cnf, address_of(operand, registers));
    store_program(registers, bus, table_address(registers, repeated), word)?;
    settle(registers, operand, arp);
    Ok(())
}
