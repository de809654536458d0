//! Sums and differences in the accumulator.

ghost use Rattle.std.specs.Prelude.{◌≡◌, ◌+ℤ◌, ◌-ℤ◌, ℤ, pos, unsigned_abs, if◌then◌else◌};
ghost use Rattle.c25_bits.specs.Cut.{signed};
ghost use Rattle.c25_meaning_processor.specs.Arithmetic.{absolute_value, difference, negated, sum, with_total};
ghost use Rattle.c25_alu.specs.Total.{IsTotal};

use c25_meaning_processor::accumulator::Acc;

/// The lowest number of 32 signed bits: the sign bit.
const LOWEST: u32 = 0x8000_0000;

/// The highest number of 32 signed bits.
const HIGHEST: u32 = 0x7FFF_FFFF;

/// The sum or difference of two signed numbers of 32 bits.
#[derive(Clone, Copy)]
pub(super) struct Total {
    /// The low 32 bits.
    pub(super) bits: u32,
    /// Whether the number lies outside 32 signed bits.
    pub(super) overflows: bool,
    pub(super) negative: bool,
}

/// The sum of two numbers, given as signed bits.
#[inline(always)]
fn total_sum(first: u32, second: u32) -> Total
    ensures { IsTotal result (signed first 32 +ℤ signed second 32) }
{
    let bits = first.wrapping_add(second);
    let negative = first >= LOWEST;
    let overflows = negative != (bits >= LOWEST) && (second >= LOWEST) != (bits >= LOWEST);
    Total {
        bits,
        overflows,
        negative: if overflows { negative } else { bits >= LOWEST },
    }
}

/// The difference of two numbers, given as signed bits.
#[inline(always)]
pub(super) fn total_difference(first: u32, second: u32) -> Total
    ensures { IsTotal result (signed first 32 -ℤ signed second 32) }
{
    let bits = first.wrapping_sub(second);
    let negative = first >= LOWEST;
    let overflows = negative != (second >= LOWEST) && negative != (bits >= LOWEST);
    Total {
        bits,
        overflows,
        negative: if overflows { negative } else { bits >= LOWEST },
    }
}

/// The absolute value of a number, given as signed bits.
fn total_absolute(bits: u32) -> Total
    ensures { IsTotal result (pos (unsigned_abs (signed bits 32))) }
{
    Total {
        bits: if bits < LOWEST {
            bits
        } else {
            bits.wrapping_neg()
        },
        overflows: bits == LOWEST,
        negative: false,
    }
}

/// The accumulator's new value for a total outside 32 signed bits: with `ovm` the end of the range on its
/// side, otherwise the low 32 bits.
#[inline(never)]
fn beyond(bits: u32, negative: bool, ovm: bool) -> u32
    ensures { result ≡ (if ovm then (if negative then 0x8000_0000 else 0x7FFF_FFFF) else bits) }
{
    match (ovm, negative) {
        (false, _) => bits,
        (true, true) => LOWEST,
        (true, false) => HIGHEST,
    }
}

/// Gives the accumulator a new value. Where the total lies outside 32 signed bits, OV is set, and with `ovm`
/// the value is the end of the range. The rare part is a function of its own.
#[inline(always)]
fn keep(acc: &mut Acc, total: Total, carry: bool, ovm: bool)
    ensures { (number : ℤ) → IsTotal total number → acc.new ≡ with_total number ovm carry acc.old }
{
    acc.c = carry;
    if total.overflows {
        acc.ov = true;
        acc.value = beyond(total.bits, total.negative, ovm);
        return;
    }
    acc.value = total.bits;
}

/// `ACC += v`, where v is `addend` as a signed number. C is the carry out of the 32 bits. Where the sum lies
/// outside 32 signed bits, OV is set, and with `ovm` the accumulator takes the end of the range on its side.
#[tactic(auto, unfolding(c25_meaning_processor::specs::Arithmetic::sum))]
#[inline(always)]
pub fn add(acc: &mut Acc, addend: u32, ovm: bool)
    ensures { acc.new ≡ sum acc.old (signed addend 32) ovm }
{
    let total = total_sum(acc.value, addend);
    let (_, carry) = acc.value.overflowing_add(addend);
    keep(acc, total, carry, ovm);
}

/// `ACC -= v`, where v is `amount` as a signed number. C is 0 where the 32 bits borrow. OV and saturation are
/// as for [`add`].
#[tactic(auto, unfolding(c25_meaning_processor::specs::Arithmetic::difference))]
#[inline(always)]
pub fn subtract(acc: &mut Acc, amount: u32, ovm: bool)
    ensures { acc.new ≡ difference acc.old (signed amount 32) ovm }
{
    let total = total_difference(acc.value, amount);
    let carry = acc.value >= amount;
    keep(acc, total, carry, ovm);
}

/// `ABS`: the accumulator's absolute value, and C 0. For 80000000h, whose absolute value needs 33 signed
/// bits, OV is set, and with `ovm` the value is 7FFFFFFFh.
#[tactic(auto, unfolding(c25_meaning_processor::specs::Arithmetic::absolute_value))]
pub fn take_absolute_value(acc: &mut Acc, ovm: bool)
    ensures { acc.new ≡ absolute_value acc.old ovm }
{
    let total = total_absolute(acc.value);
    keep(acc, total, false, ovm);
}

/// `NEG`: the accumulator's negative; C is 1 for 0, and otherwise 0. For 80000000h OV is set, and with `ovm`
/// the value is 7FFFFFFFh.
#[tactic(auto, unfolding(c25_meaning_processor::specs::Arithmetic::negated))]
pub fn negate(acc: &mut Acc, ovm: bool)
    ensures { acc.new ≡ negated acc.old ovm }
{
    let total = total_difference(0, acc.value);
    let carry = acc.value == 0;
    keep(acc, total, carry, ovm);
}
