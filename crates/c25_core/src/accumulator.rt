//! The accumulator and the product, as the instructions use them.

ghost use Rattle.std.specs.Prelude.{◌≡◌, ◌<◌, ◌^◌, ◌/◌, ◌-◌, ◌%◌, ◌==◌, pos};
ghost use Rattle.c25_bits.specs.Cut.{cut, signed};
ghost use Rattle.c25_meaning_processor.specs.Arithmetic.{scaled};
ghost use Rattle.c25_meaning_processor.specs.Effect.{become, minus, minus_high, minus_product, plus, plus_high, plus_product, product_word, word_product};

use c25_alu::{add, product, scaled, shifted_product, subtract};
use c25_meaning_processor::registers::Registers;

/// A word with its sign.
pub fn signed_word(word: u16) -> i16
    ensures { result ≡ signed word 16 }
{
    word.cast_signed()
}

/// The product of two words with their signs.
#[inline(always)]
pub fn word_product(first: u16, second: u16) -> u32
    ensures { result ≡ word_product first second }
{
    product(signed_word(first), signed_word(second))
}

/// P, shifted as PM says.
#[inline(always)]
pub fn product_word(registers: &Registers) -> u32
    ensures { result ≡ product_word registers.now }
{
    shifted_product(registers.p, registers.pm)
}

/// ACC += v, where v is the signed number of these bits.
#[inline(always)]
pub fn plus(registers: &mut Registers, addend: u32)
    ensures { registers.new ≡ plus (signed addend 32) registers.old }
{
    let ovm = registers.ovm;
    add(&mut registers.acc, addend, ovm);
}

/// ACC -= v, where v is the signed number of these bits.
#[inline(always)]
pub fn minus(registers: &mut Registers, amount: u32)
    ensures { registers.new ≡ minus (signed amount 32) registers.old }
{
    let ovm = registers.ovm;
    subtract(&mut registers.acc, amount, ovm);
}

/// ACC += a number below 2^31.
#[inline(always)]
pub fn plus_natural(registers: &mut Registers, number: u32)
    requires { number < 2 ^ 31 }
    ensures { registers.new ≡ plus (pos number) registers.old }
{
    plus(registers, number)
}

/// ACC -= a number below 2^31.
#[inline(always)]
pub fn minus_natural(registers: &mut Registers, number: u32)
    requires { number < 2 ^ 31 }
    ensures { registers.new ≡ minus (pos number) registers.old }
{
    minus(registers, number)
}

/// ACC = a word times 2^`shift`; under SXM 1 the word has its sign. No flag changes.
#[inline(always)]
pub fn become_scaled(registers: &mut Registers, word: u16, shift: u16)
    requires { shift < 16 }
    ensures { registers.new
        ≡ become (cut (scaled registers.old.sxm word shift) 32) registers.old }
{
    registers.acc.value = scaled(registers.sxm, word, shift);
}

/// ACC += a word times 2^`shift`; under SXM 1 the word has its sign.
#[inline(always)]
pub fn plus_scaled(registers: &mut Registers, word: u16, shift: u16)
    requires { shift < 16 }
    ensures { registers.new ≡ plus (scaled registers.old.sxm word shift) registers.old }
{
    plus(registers, scaled(registers.sxm, word, shift))
}

/// ACC -= a word times 2^`shift`; under SXM 1 the word has its sign.
#[inline(always)]
pub fn minus_scaled(registers: &mut Registers, word: u16, shift: u16)
    requires { shift < 16 }
    ensures { registers.new ≡ minus (scaled registers.old.sxm word shift) registers.old }
{
    minus(registers, scaled(registers.sxm, word, shift))
}

/// ACC += P, shifted as PM says.
#[inline(always)]
pub fn plus_product(registers: &mut Registers)
    ensures { registers.new ≡ plus_product registers.old }
{
    plus(registers, product_word(registers))
}

/// ACC -= P, shifted as PM says.
#[inline(always)]
pub fn minus_product(registers: &mut Registers)
    ensures { registers.new ≡ minus_product registers.old }
{
    minus(registers, product_word(registers))
}

/// ACC += a word times 2^16. C is set where there is a carry, and otherwise stays as it is.
#[inline(always)]
pub fn plus_high(registers: &mut Registers, word: u16)
    ensures { registers.new ≡ plus_high word registers.old }
{
    let carry = registers.acc.c;
    plus(registers, u32::from(word) * 0x1_0000);
    registers.acc.c = carry || registers.acc.c;
}

/// ACC -= a word times 2^16. C is cleared where there is a borrow, and otherwise stays as it is.
#[inline(always)]
pub fn minus_high(registers: &mut Registers, word: u16)
    ensures { registers.new ≡ minus_high word registers.old }
{
    let carry = registers.acc.c;
    minus(registers, u32::from(word) * 0x1_0000);
    registers.acc.c = carry && registers.acc.c;
}

/// The low half of a value.
#[inline(always)]
pub fn low_half(value: u32) -> u16
    ensures { result ≡ value % 2 ^ 16 }
{
    (value % 0x1_0000) as u16
}

/// The high half of a value.
#[inline(always)]
pub fn high_half(value: u32) -> u16
    ensures { result ≡ value / 2 ^ 16 }
{
    (value / 0x1_0000) as u16
}

/// The bit of a word that a bit code names: code 0 is bit 15, code 15 is bit 0.
pub fn bit_of(word: u16, code: u16) -> bool
    ensures { result ≡ (word / 2 ^ (15 - code % 16) % 2 == 1) }
{
    (word >> (15 - code % 16)) % 2 == 1
}
