//! Bit fields of words, words as 32 bits, and addition with reversed carry (SPRU014, "Indirect
//! Addressing Mode").
#![tactic(auto)]

ghost use Rattle.std.specs.Prelude.{◌≡◌, ℕ, ◌+◌, ◌-◌, ◌*◌, ◌/◌, ◌%◌, ◌^◌, ◌<◌, ◌≤◌, ◌↔◌, IsTrue, pos, ◌<ℤ◌, ◌≤ℤ◌, if◌then◌else◌};
ghost use Rattle.std.specs.Int.{bit_at};
ghost use Rattle.c25_bits.specs.Cut.{cut, signed};
ghost use Rattle.c25_bits.specs.Reverse.{reverse_sum, reverse_difference};

/// The bits `AT` to `AT + WIDTH - 1` of a word, bit 0 being the lowest. A field of no bits holds 0.
pub struct Field<const AT: u32, const WIDTH: u32>;

impl<const AT: u32, const WIDTH: u32> Field<AT, WIDTH> {
    /// The number that the field of a word holds.
    pub fn get(word: u16) -> u16
        requires { AT + WIDTH ≤ 16 }
        ensures { result ≡ word / 2 ^ AT % 2 ^ WIDTH }
    {
        ((u32::from(word) >> AT) % (1 << WIDTH)) as u16
    }

    /// The word with another number in the field. All other bits stay.
    pub fn put(word: u16, value: u16) -> u16
        requires inside { AT + WIDTH ≤ 16 }
        requires below { value < 2 ^ WIDTH }
        ensures parts { result ≡ word / 2 ^ (AT + WIDTH) * 2 ^ (AT + WIDTH)
            + value * 2 ^ AT + word % 2 ^ AT }
        ensures field { result / 2 ^ AT % 2 ^ WIDTH ≡ value }
        ensures below_field { (k : ℕ) → k < AT → bit_at result k ≡ bit_at word k }
        ensures above_field { (k : ℕ) → AT + WIDTH ≤ k → bit_at result k ≡ bit_at word k }
    {
        Self::replaced(u32::from(word), u32::from(value)) as u16
    }

    /// The word that `put` gives, computed in 32 bits: a shift by AT + WIDTH may be one by 16 bits, which 16
    /// bits do not allow.
    fn replaced(word: u32, value: u32) -> u32
        requires inside { AT + WIDTH ≤ 16 }
        requires word_below { word < 2 ^ 16 }
        requires below { value < 2 ^ WIDTH }
        ensures { result ≡ word / 2 ^ (AT + WIDTH) * 2 ^ (AT + WIDTH)
            + value * 2 ^ AT + word % 2 ^ AT }
    {
        let end = AT + WIDTH;
        (word >> end << end) + (value << AT) + word % (1 << AT)
    }

    /// Whether the field can hold a number: 0 to `2 ^ WIDTH - 1`.
    pub fn fits(number: i64) -> bool
        requires { AT + WIDTH ≤ 16 }
        ensures { IsTrue result ↔ (pos 0 ≤ℤ number × number <ℤ pos (2 ^ WIDTH)) }
    {
        number >= 0 && number < (1 << WIDTH)
    }
}

/// A word as 32 bits: with its sign, bit 15 in each of the upper bits, or without, the upper bits 0
/// (SPRU014, sign-extension mode).
pub fn extend(word: u16, with_sign: bool) -> u32
    ensures { result ≡ cut (if with_sign then signed word 16 else pos word) 32 }
{
    if with_sign && word >= 0x8000 {
        u32::from(word) + 0xffff_0000
    } else {
        u32::from(word)
    }
}

/// The sum of two words whose carries go from the highest bit down, as `*BR0+` adds AR0.
#[tactic(auto, using(crate::proofs::Reversed::reversed_is))]
pub fn reverse_add(first: u16, second: u16) -> u16
    ensures { result ≡ reverse_sum first second }
{
    first
        .reverse_bits()
        .wrapping_add(second.reverse_bits())
        .reverse_bits()
}

/// The difference of two words whose borrows go from the highest bit down, as `*BR0-` subtracts
/// AR0.
#[tactic(auto, using(crate::proofs::Reversed::reversed_is))]
pub fn reverse_sub(first: u16, second: u16) -> u16
    ensures { result ≡ reverse_difference first second }
{
    first
        .reverse_bits()
        .wrapping_sub(second.reverse_bits())
        .reverse_bits()
}
