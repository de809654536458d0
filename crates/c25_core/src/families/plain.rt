//! The instructions without an address.

ghost use Rattle.std.specs.Prelude.{◌≡◌, true, false, slice_index};
ghost use Rattle.c25_meaning_processor.specs.Effect.{compares, norm_effect, operand_change, operand_number, plain_effect};
ghost use Rattle.c25_meaning_processor.specs.Arithmetic.{normalized};

use crate::accumulator::{low_half, minus_product, plus_product, product_word};
use crate::operand::{change_ar, current};
use crate::stack::{call, pop, push};
use crate::status::shift_of_number;
use c25_alu::{
    negate, norm, rotate_left, rotate_right, shift_left_once, shift_right_once, take_absolute_value,
};
use c25_meaning_instructions::insn::{Change, PlainOperand};
use c25_meaning_instructions::mnemonic::PlainName;
use c25_meaning_processor::registers::Registers;

/// The number of an operand, or 0.
fn operand_number(operand: &PlainOperand) -> u16
    ensures { result ≡ operand_number operand.now }
{
    match operand {
        PlainOperand::Number(number) => *number,
        _ => 0,
    }
}

/// The change that an operand has, or `Keep`.
fn operand_change(operand: &PlainOperand) -> Change
    ensures { result ≡ operand_change operand.now }
{
    match operand {
        PlainOperand::Change(change) => *change,
        _ => Change::Keep,
    }
}

/// The comparison of `CMPR` with this number: for 0, 1, 2 and 3, whether the current register is equal to,
/// less than, greater than and different from AR0.
fn compares(number: u16, ar: u16, ar0: u16) -> bool
    ensures { result ≡ compares number ar ar0 }
{
    match number {
        0 => ar == ar0,
        1 => ar < ar0,
        2 => ar > ar0,
        _ => ar != ar0,
    }
}

/// `NORM`: where the accumulator is shifted, TC is cleared and the AR changes; else TC is set.
fn normalize(registers: &mut Registers, change: Change)
    ensures { registers.new
        ≡ norm_effect (normalized registers.old.acc.value) change registers.old }
{
    match norm(registers.acc.value) {
        None => registers.tc = true,
        Some(value) => {
            change_ar(registers, change, registers.arp);
            registers.acc.value = value;
            registers.tc = false;
        }
    }
}

/// `CMPR`: TC says whether the comparison of the current register with AR0 holds.
fn compare(registers: &mut Registers, number: u16)
    ensures { registers.new ≡ record registers.old {
      tc = compares number
          (slice_index registers.old.ar registers.old.arp) (slice_index registers.old.ar 0);
    } }
{
    registers.tc = compares(number, current(registers), registers.ar[0]);
}

/// `EINT`: interrupts are taken again, after the next instruction.
fn enable_interrupts(registers: &mut Registers)
    ensures { registers.new ≡ record registers.old { intm = false; shadowed = true } }
{
    registers.intm = false;
    registers.shadowed = true;
}

/// `IDLE`: INTM is cleared, and the processor sleeps until an interrupt is taken.
fn sleep(registers: &mut Registers)
    ensures { registers.new ≡ record registers.old { intm = false; asleep = true } }
{
    registers.intm = false;
    registers.asleep = true;
}

/// Runs an instruction without an address; PC already stands after it. Of two names that share a `match` arm,
/// the second sets the bit and the first clears it.
#[inline(always)]
pub fn plain(registers: &mut Registers, name: PlainName, operand: &PlainOperand)
    ensures { registers.new ≡ plain_effect name operand.now registers.old }
{
    match name {
        PlainName::Eint => enable_interrupts(registers),
        PlainName::Dint => registers.intm = true,
        PlainName::Rovm | PlainName::Sovm => registers.ovm = name == PlainName::Sovm,
        PlainName::Cnfd | PlainName::Cnfp => registers.cnf = name == PlainName::Cnfp,
        PlainName::Rsxm | PlainName::Ssxm => registers.sxm = name == PlainName::Ssxm,
        PlainName::Rxf | PlainName::Sxf => registers.xf = name == PlainName::Sxf,
        PlainName::Rtxm | PlainName::Stxm => registers.txm = name == PlainName::Stxm,
        PlainName::Rc | PlainName::Sc => registers.acc.c = name == PlainName::Sc,
        PlainName::Rtc | PlainName::Stc => registers.tc = name == PlainName::Stc,
        PlainName::Rfsm | PlainName::Sfsm => registers.fsm = name == PlainName::Sfsm,
        PlainName::Rhm | PlainName::Shm => registers.hm = name == PlainName::Shm,
        PlainName::Pac => registers.acc.value = product_word(registers),
        PlainName::Apac => plus_product(registers),
        PlainName::Spac => minus_product(registers),
        PlainName::Sfl => registers.acc = shift_left_once(registers.acc),
        PlainName::Sfr => registers.acc = shift_right_once(registers.acc, registers.sxm),
        PlainName::Abs => {
            let ovm = registers.ovm;
            take_absolute_value(&mut registers.acc, ovm);
        }
        PlainName::Push => push(registers, low_half(registers.acc.value)),
        PlainName::Pop => registers.acc.value = u32::from(pop(registers)),
        PlainName::Trap => call(registers, 0x1E),
        PlainName::Idle => sleep(registers),
        PlainName::Neg => {
            let ovm = registers.ovm;
            negate(&mut registers.acc, ovm);
        }
        PlainName::Cala => call(registers, low_half(registers.acc.value)),
        PlainName::Bacc => registers.pc = low_half(registers.acc.value),
        PlainName::Ret => registers.pc = pop(registers),
        PlainName::Cmpl => registers.acc.value = 0xFFFF_FFFF - registers.acc.value,
        PlainName::Rol => registers.acc = rotate_left(registers.acc),
        PlainName::Ror => registers.acc = rotate_right(registers.acc),
        PlainName::Spm => registers.pm = shift_of_number(operand_number(operand)),
        PlainName::Fort => registers.fo = operand_number(operand) == 1,
        PlainName::Cmpr => compare(registers, operand_number(operand)),
        PlainName::Norm => normalize(registers, operand_change(operand)),
    }
}
