//! Division, one step at a time.

ghost use Rattle.std.specs.Prelude.{◌≡◌};
ghost use Rattle.c25_bits.specs.Cut.{signed};
ghost use Rattle.c25_meaning_processor.specs.Arithmetic.{conditional_difference};

use crate::addition::total_difference;
use c25_meaning_processor::accumulator::Acc;

/// The accumulator after one step of `SUBC`, where `divisor` is the divisor times 2^15, as a signed number.
/// From a dividend of 16 bits, and with a positive divisor, sixteen steps leave the quotient in the low half
/// and the remainder in the high half. Nothing saturates.
#[tactic(auto, using(crate::proofs::Numbers::twice, crate::proofs::Numbers::twice_and_one, crate::proofs::Numbers::cut_signed), unfolding(c25_meaning_processor::specs::Arithmetic::conditional_difference))]
pub fn subc(acc: Acc, divisor: u32) -> Acc
    ensures { result ≡ conditional_difference acc (signed divisor 32) }
{
    let rest = total_difference(acc.value, divisor);
    let value = if rest.negative {
        acc.value.wrapping_mul(2)
    } else {
        rest.bits.wrapping_mul(2) + 1
    };
    Acc {
        value,
        ov: acc.ov || rest.overflows,
        c: acc.value >= divisor,
    }
}
