//! The instructions with a short number.

ghost use Rattle.std.specs.Prelude.{◌≡◌, pos, ◌≤ℤ◌};
ghost use Rattle.c25_meaning_processor.specs.Effect.{short_effect};
ghost use Rattle.c25_meaning_instructions.specs.Table.{ShortInRange};

use crate::accumulator::{minus_natural, plus_natural, signed_word};
use crate::families::mem::repeat;
use c25_alu::product;
use c25_meaning_instructions::mnemonic::ShortName;
use c25_meaning_processor::registers::{DataPage, Registers};

/// A number that is not negative, as a word.
fn natural(number: i16) -> u16
    requires { pos 0 ≤ℤ number }
    ensures { pos result ≡ number }
{
    number.cast_unsigned()
}

/// Runs an instruction with a short number; `register` is the one that `LARK` loads.
#[inline(always)]
pub fn short(registers: &mut Registers, name: ShortName, register: u16, number: i16)
    requires { ShortInRange name register number }
    ensures { registers.new ≡ short_effect name register number registers.old }
{
    let arp = usize::from(registers.arp.number());
    match name {
        ShortName::Adrk => registers.ar[arp] = registers.ar[arp].wrapping_add(natural(number)),
        ShortName::Sbrk => registers.ar[arp] = registers.ar[arp].wrapping_sub(natural(number)),
        ShortName::Lark => registers.ar[usize::from(register)] = natural(number),
        ShortName::Lack => registers.acc.value = u32::from(natural(number)),
        ShortName::Rptk => repeat(registers, (natural(number) % 256) as u8),
        ShortName::Addk => plus_natural(registers, u32::from(natural(number))),
        ShortName::Subk => minus_natural(registers, u32::from(natural(number))),
        ShortName::Ldpk => registers.dp = DataPage::new(natural(number) % 512),
        ShortName::Mpyk => registers.p = product(signed_word(registers.t), number),
    }
}
