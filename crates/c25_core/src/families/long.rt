//! The instructions with a long number.

ghost use Rattle.std.specs.Prelude.{◌≡◌, ◌<◌};
ghost use Rattle.c25_meaning_processor.specs.Effect.{long_effect};
ghost use Rattle.c25_meaning_instructions.specs.Table.{high_limit};

use crate::accumulator::{become_scaled, minus_scaled, plus_scaled};
use c25_alu::moved_left;
use c25_meaning_instructions::mnemonic::LongName;
use c25_meaning_processor::registers::Registers;

/// Runs an instruction with a long number; `high` is the register that `LRLK` loads, or the shift.
pub fn long(registers: &mut Registers, name: LongName, number: u16, high: u16)
    requires { high < high_limit name }
    ensures { registers.new ≡ long_effect name number high registers.old }
{
    let mask = moved_left(u32::from(number), high);
    match name {
        LongName::Lrlk => registers.ar[usize::from(high)] = number,
        LongName::Lalk => become_scaled(registers, number, high),
        LongName::Adlk => plus_scaled(registers, number, high),
        LongName::Sblk => minus_scaled(registers, number, high),
        LongName::Andk => registers.acc.value &= mask,
        LongName::Ork => registers.acc.value |= mask,
        LongName::Xork => registers.acc.value ^= mask,
    }
}
