//! All 65,536 first words, decoded and encoded.

ghost use Rattle.std.specs.Prelude.{◌<◌};

use crate::values::equal;
use c25_isa::{decode, encode, show};
use c25_meaning_common::no_memory::NoMemory;
use std::alloc::Global;
use std::test::Fail;

/// For each highest digit the FNV-1a sum of the texts of its 4,096 first words with the second word 1234h, in
/// order, each with LF after it, and `none` for words of no row. The sums are from an independent model.
const SUMS: [u64; 16] = [
    0x8f76_2f5a_f572_ee81,
    0x2151_65b9_8252_34c7,
    0x96ad_cf5e_78bb_da3f,
    0xc2b3_abfd_2ef7_a1f9,
    0x4ca3_fe58_44f2_ed91,
    0x1c62_8408_2b26_d9e9,
    0x2660_a561_716a_5535,
    0x2825_7773_2f51_4db4,
    0xa812_3e9b_58e1_21cd,
    0xd8da_2e3a_ff31_83b1,
    0xa3bc_e83f_ee35_ffed,
    0xd05e_5af2_d7ed_af58,
    0xadb1_3fee_9bd4_6e2d,
    0x49ab_0bbe_bc1e_5557,
    0xde8c_cda2_5224_c64d,
    0x0032_0355_2d3e_899c,
];

/// The FNV-1a sum of bytes followed by those of a text.
fn sum_with(sum: u64, text: &str) -> u64 {
    let mut sum = sum;
    for byte in text.as_bytes() {
        sum = (sum ^ u64::from(*byte)).wrapping_mul(0x0100_0000_01b3);
    }
    sum
}

/// The FNV-1a sum of bytes followed by the text of the instruction that two words decode to.
fn sum_with_words(alloc: Global, sum: u64, first: u16, second: u16) -> Result<u64, NoMemory> {
    match decode(first, second) {
        Some(insn) => {
            let text = show(alloc, &insn)?;
            Ok(sum_with(sum, text.as_str()))
        }
        None => Ok(sum_with(sum, "none")),
    }
}

/// The sum of the texts of the first words with one highest digit.
fn sum_of(alloc: Global, digit: u16) -> Result<u64, NoMemory>
    requires { digit < 16 }
{
    let mut sum = 0xcbf2_9ce4_8422_2325;
    for low in 0..0x1000 {
        sum = sum_with(
            sum_with_words(alloc, sum, digit * 0x1000 + low, 0x1234)?,
            "\n",
        );
    }
    Ok(sum)
}

/// The sums of all digits.
fn sums_of_all(alloc: Global) -> Result<[u64; 16], NoMemory> {
    let mut sums = [0; 16];
    for digit in 0..16 {
        sums[usize::from(digit)] = sum_of(alloc, digit)?;
    }
    Ok(sums)
}

#[test]
fn every_first_word_reads_as_the_model_says(rt: HostRuntime) -> Result<(), Fail> {
    let sums = sums_of_all(rt.alloc())?;
    equal(&rt, sums, SUMS);
    Ok(())
}

/// Whether the instruction that two words decode to, if any, is encoded as these words.
fn is_written_again(first: u16, second: u16) -> bool {
    match decode(first, second) {
        Some(insn) => match encode(&insn).as_slice() {
            [word] => *word == first,
            [word, next] => *word == first && *next == second,
            _ => false,
        },
        None => true,
    }
}

/// The first words that are not written again, if there are any.
fn first_not_written_again() -> Option<(u16, u16)> {
    for first in 0..=0xffff {
        for second in [0, 0x1234, 0xffff] {
            if !is_written_again(first, second) {
                return Some((first, second));
            }
        }
    }
    None
}

#[test]
fn every_instruction_is_written_again(rt: HostRuntime) {
    equal(&rt, first_not_written_again(), None);
}
