//! Products, and how they are shifted.

ghost use Rattle.std.specs.Prelude.{◌≡◌};
ghost use Rattle.c25_meaning_processor.specs.Arithmetic.{product, shifted_product};

use c25_meaning_processor::accumulator::ProductShift;

/// The product of two signed words, in 32 bits.
#[tactic(auto, unfolding(c25_meaning_processor::specs::Arithmetic::product))]
pub fn product(first: i16, second: i16) -> u32
    ensures { result ≡ product first second }
{
    let product = i32::from(first) * i32::from(second);
    product.cast_unsigned()
}

/// The product shifted by any PM, cut to 32 bits.
#[inline(never)]
#[tactic(auto, unfolding(c25_meaning_processor::specs::Arithmetic::shifted_product))]
fn shifted_by(p: u32, shift: ProductShift) -> u32
    ensures { result ≡ shifted_product p shift }
{
    match shift {
        ProductShift::None => p,
        ProductShift::Left1 => p.wrapping_mul(2),
        ProductShift::Left4 => p.wrapping_mul(16),
        ProductShift::Right6 => (p.cast_signed() >> 6).cast_unsigned(),
    }
}

/// The product shifted as PM says, cut to 32 bits. The shift to the right keeps the sign. The PM that shifts
/// nothing, which most programs use, is tested first.
#[inline(always)]
#[tactic(auto, unfolding(c25_meaning_processor::specs::Arithmetic::shifted_product))]
pub fn shifted_product(p: u32, shift: ProductShift) -> u32
    ensures { result ≡ shifted_product p shift }
{
    if let ProductShift::None = shift {
        return p;
    }
    shifted_by(p, shift)
}
