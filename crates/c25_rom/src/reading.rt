//! The words of bytes that were read back.

ghost use Rattle.std.specs.Prelude.{◌≡◌, IfOk};
ghost use Rattle.c25_rom.specs.Bytes.{file_words, pair_words, word_in, word_of};

use crate::byte_order::ByteOrder;
use c25_meaning_common::no_memory::NoMemory;
use std::alloc::Global;

/// The word of two bytes.
fn word_of(high: u8, low: u8) -> u16
    ensures { result ≡ word_of high low }
{
    256 * u16::from(high) + u16::from(low)
}

/// The word of two bytes in an order.
fn word_in(order: ByteOrder, first: u8, second: u8) -> u16
    ensures { result ≡ word_in order first second }
{
    match order {
        ByteOrder::HighFirst => word_of(first, second),
        ByteOrder::LowFirst => word_of(second, first),
    }
}

/// The words of two devices, of which one has the high byte of each word and one the low byte. Where one has more bytes
/// than the other, these are left out.
pub fn pair_words(alloc: Global, high: &[u8], low: &[u8]) -> Result<Vec<u16>, NoMemory>
    ensures { IfOk result (λ words. words.items ≡ pair_words high.now low.now) }
{
    let words = high
        .iter()
        .zip(low)
        .map(|(high, low)| word_of(*high, *low))
        .collect(alloc)?;
    Ok(words)
}

/// The words of bytes, both of each word in an order. A last byte without another one is left out.
pub fn file_words(alloc: Global, bytes: &[u8], order: ByteOrder) -> Result<Vec<u16>, NoMemory>
    ensures { IfOk result (λ words. words.items ≡ file_words order bytes.now) }
{
    let mut words = Vec::new(alloc);
    let mut rest = bytes;
    while let [first, second, after @ ..] = rest {
        words.push(word_in(order, *first, *second))?;
        rest = after;
    }
    Ok(words)
}
