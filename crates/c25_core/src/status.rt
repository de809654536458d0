//! The status words (SPRU014, "Status Registers").

ghost use Rattle.std.specs.Prelude.{◌≡◌, ◌*◌, ◌/◌, ◌%◌, ◌==◌, ◌<◌, ◌≤◌};
ghost use Rattle.c25_meaning_processor.specs.Arithmetic.{bit, shift_number, shift_of_number};
ghost use Rattle.c25_meaning_processor.specs.Status.{is_set, regs_of, st0, st1, with_st0, with_st1};

use c25_meaning_processor::accumulator::ProductShift;
use c25_meaning_processor::registers::{ArNumber, DataPage, Registers, Regs};

/// PM as a number of two bits.
fn shift_number(shift: ProductShift) -> u16
    ensures value { result ≡ shift_number shift }
    ensures small { result < 4 }
{
    match shift {
        ProductShift::None => 0,
        ProductShift::Left1 => 1,
        ProductShift::Left4 => 2,
        ProductShift::Right6 => 3,
    }
}

/// The PM of a number of two bits.
pub fn shift_of_number(number: u16) -> ProductShift
    ensures { result ≡ shift_of_number number }
{
    match number {
        0 => ProductShift::None,
        1 => ProductShift::Left1,
        2 => ProductShift::Left4,
        _ => ProductShift::Right6,
    }
}

/// Whether a bit of a word is set.
fn is_set(word: u16, place: u16) -> bool
    requires { place < 16 }
    ensures { result ≡ is_set word place }
{
    (word >> place) % 2 == 1
}

/// A flag at the bit of this weight.
fn flag(flag: bool, weight: u16) -> u16
    ensures value { result ≡ bit flag * weight }
    ensures small { result ≤ weight }
{
    if flag { weight } else { 0 }
}

/// ST0.
#[tactic(auto, unfolding(c25_meaning_processor::specs::Status::st0))]
pub fn st0(registers: &Registers) -> u16
    ensures { result ≡ st0 registers.now }
{
    registers.arp.number() * 0x2000
        + flag(registers.acc.ov, 0x1000)
        + flag(registers.ovm, 0x800)
        + 0x400
        + flag(registers.intm, 0x200)
        + registers.dp.number()
}

/// ST1.
#[tactic(auto, unfolding(c25_meaning_processor::specs::Status::st1))]
pub fn st1(registers: &Registers) -> u16
    ensures { result ≡ st1 registers.now }
{
    registers.arb.number() * 0x2000
        + flag(registers.cnf, 0x1000)
        + flag(registers.tc, 0x800)
        + flag(registers.sxm, 0x400)
        + flag(registers.acc.c, 0x200)
        + 0x100
        + 0x80
        + flag(registers.hm, 0x40)
        + flag(registers.fsm, 0x20)
        + flag(registers.xf, 0x10)
        + flag(registers.fo, 8)
        + flag(registers.txm, 4)
        + shift_number(registers.pm)
}

/// Loads ST0, but for INTM.
pub fn load_st0(registers: &mut Registers, word: u16)
    ensures { registers.new ≡ with_st0 word registers.old }
{
    registers.arp = ArNumber::new(word / 0x2000);
    registers.acc.ov = is_set(word, 12);
    registers.ovm = is_set(word, 11);
    registers.dp = DataPage::new(word % 512);
}

/// Loads ST1; ARP becomes the new ARB.
pub fn load_st1(registers: &mut Registers, word: u16)
    ensures { registers.new ≡ with_st1 word registers.old }
{
    registers.arb = ArNumber::new(word / 0x2000);
    registers.arp = ArNumber::new(word / 0x2000);
    registers.cnf = is_set(word, 12);
    registers.tc = is_set(word, 11);
    registers.sxm = is_set(word, 10);
    registers.acc.c = is_set(word, 9);
    registers.hm = is_set(word, 6);
    registers.fsm = is_set(word, 5);
    registers.xf = is_set(word, 4);
    registers.fo = is_set(word, 3);
    registers.txm = is_set(word, 2);
    registers.pm = shift_of_number(word % 4);
}

/// The registers as a debugger shows them.
pub fn regs_of(registers: &Registers) -> Regs
    ensures { result ≡ regs_of registers.now }
{
    Regs {
        acc: registers.acc.value,
        p: registers.p,
        t: registers.t,
        ar: registers.ar,
        pc: registers.pc,
        st0: st0(registers),
        st1: st1(registers),
        rptc: registers.rptc,
        stack: registers.stack,
    }
}
