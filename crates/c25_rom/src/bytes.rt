//! The bytes of words.

ghost use Rattle.std.specs.Prelude.{◌≡◌, IfOk};
ghost use Rattle.c25_rom.specs.Bytes.{bytes_in, file_bytes, high_bytes, low_bytes};

use crate::byte_order::ByteOrder;
use c25_meaning_common::no_memory::NoMemory;
use std::alloc::Global;

/// The bytes of the device with the high byte of each word.
pub fn high_bytes(alloc: Global, words: &[u16]) -> Result<Vec<u8>, NoMemory>
    ensures { IfOk result (λ bytes. bytes.items ≡ high_bytes words.now) }
{
    let mut bytes = Vec::new(alloc);
    for word in words {
        bytes.push((*word / 256) as u8)?;
    }
    Ok(bytes)
}

/// The bytes of the device with the low byte of each word.
pub fn low_bytes(alloc: Global, words: &[u16]) -> Result<Vec<u8>, NoMemory>
    ensures { IfOk result (λ bytes. bytes.items ≡ low_bytes words.now) }
{
    let mut bytes = Vec::new(alloc);
    for word in words {
        bytes.push((*word % 256) as u8)?;
    }
    Ok(bytes)
}

/// The bytes of a word in an order.
fn bytes_in(order: ByteOrder, word: u16) -> [u8; 2]
    ensures { result ≡ bytes_in order word }
{
    let high = (word / 256) as u8;
    let low = (word % 256) as u8;
    match order {
        ByteOrder::HighFirst => [high, low],
        ByteOrder::LowFirst => [low, high],
    }
}

/// The bytes of words, both of each word in an order.
pub fn file_bytes(alloc: Global, words: &[u16], order: ByteOrder) -> Result<Vec<u8>, NoMemory>
    ensures { IfOk result (λ bytes. bytes.items ≡ file_bytes order words.now) }
{
    let mut bytes = Vec::new(alloc);
    for word in words {
        bytes.extend_from_slice(&bytes_in(order, *word))?;
    }
    Ok(bytes)
}
