//! Shifts of the accumulator and of words on their way to it.

ghost use Rattle.std.specs.Prelude.{◌≡◌, ◌<◌};
ghost use Rattle.c25_bits.specs.Cut.{cut, signed};
ghost use Rattle.c25_meaning_processor.specs.Arithmetic.{left_once, normalized, right_once, rotated_left, rotated_right, scaled, shifted_left};

use c25_bits::extend;
use c25_meaning_processor::accumulator::Acc;

/// Bit 31.
const SIGN: u32 = 0x8000_0000;

/// A value times 2^`shift`, cut to 32 bits: a shift of 32 or more leaves 0.
#[tactic(auto, using(crate::proofs::Powers::all_out))]
pub fn shift_left(value: u32, shift: u16) -> u32
    ensures { result ≡ shifted_left value shift }
{
    if shift < 32 {
        moved_left(value, shift)
    } else {
        0
    }
}

/// A value times 2^`shift`, cut to 32 bits, for shifts below 32. The shift of every instruction is below 32,
/// so that no step tests it.
#[inline(always)]
pub fn moved_left(value: u32, shift: u16) -> u32
    requires { shift < 32 }
    ensures { result ≡ shifted_left value shift }
{
    value << shift
}

/// A memory word times 2^`shift` in 32 bits. With `sxm` the word is a signed number.
#[tactic(auto, unfolding(c25_meaning_processor::specs::Arithmetic::scaled))]
#[inline(always)]
pub fn scaled(sxm: bool, word: u16, shift: u16) -> u32
    requires { shift < 16 }
    ensures bits { result ≡ cut (scaled sxm word shift) 32 }
    ensures number { signed result 32 ≡ scaled sxm word shift }
{
    extend(word, sxm) << shift
}

/// The value shifted once to the left by `NORM`, or None where it is 0 or bits 31 and 30 differ.
#[tactic(auto, unfolding(c25_meaning_processor::specs::Arithmetic::normalized))]
pub fn norm(value: u32) -> Option<u32>
    ensures { result ≡ normalized value }
{
    let sign = value / 0x8000_0000 % 2;
    let next = value / 0x4000_0000 % 2;
    if value == 0 || sign != next {
        return None;
    }
    Some(value.wrapping_mul(2))
}

/// The accumulator after `SFL`: bit 31 goes to C.
#[tactic(auto, unfolding(c25_meaning_processor::specs::Arithmetic::left_once))]
pub fn shift_left_once(acc: Acc) -> Acc
    ensures { result ≡ left_once acc }
{
    Acc {
        value: acc.value.wrapping_mul(2),
        c: acc.value >= SIGN,
        ..acc
    }
}

/// The accumulator after `SFR`: bit 0 goes to C, and bit 31 stays with `sxm`, else it becomes 0.
#[tactic(auto, unfolding(c25_meaning_processor::specs::Arithmetic::right_once))]
pub fn shift_right_once(acc: Acc, sxm: bool) -> Acc
    ensures { result ≡ right_once acc sxm }
{
    let sign = if sxm && acc.value >= SIGN { SIGN } else { 0 };
    Acc {
        value: acc.value / 2 + sign,
        c: acc.value % 2 == 1,
        ..acc
    }
}

/// The accumulator after `ROL`: C goes to bit 0, and bit 31 to C.
#[tactic(auto, unfolding(c25_meaning_processor::specs::Arithmetic::rotated_left))]
pub fn rotate_left(acc: Acc) -> Acc
    ensures { result ≡ rotated_left acc }
{
    Acc {
        value: acc.value.wrapping_mul(2) + u32::from(acc.c),
        c: acc.value >= SIGN,
        ..acc
    }
}

/// The accumulator after `ROR`: C goes to bit 31, and bit 0 to C.
#[tactic(auto, unfolding(c25_meaning_processor::specs::Arithmetic::rotated_right))]
pub fn rotate_right(acc: Acc) -> Acc
    ensures { result ≡ rotated_right acc }
{
    let high = if acc.c { SIGN } else { 0 };
    Acc {
        value: acc.value / 2 + high,
        c: acc.value % 2 == 1,
        ..acc
    }
}
