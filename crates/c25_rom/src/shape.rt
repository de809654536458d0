//! What is asked for where a ROM is to be written.

ghost use Rattle.std.specs.Prelude.{◌≡◌};
ghost use Rattle.c25_rom.specs.Shape.{shape_of, shape_with, size_of};

use crate::byte_order::ByteOrder;
use c25_meaning_common::digits::{are_digits, value_in};

/// The devices of a ROM, or the file that stands for them.
#[derive(Clone, Copy, PartialEq, Debug)]
pub enum Devices {
    /// Two devices of 8 bits, one with the high byte of each word and one with the low byte.
    Pair,
    /// One file with both bytes of each word.
    File(ByteOrder),
}

/// A ROM that is to be written.
#[derive(Clone, Copy, PartialEq, Debug)]
pub struct RomShape {
    pub devices: Devices,
    /// How many words the ROM has, from 1 to 65,536.
    pub size: usize,
}

/// How many words hexadecimal digits say, from 1 to 65,536.
fn size_of(digits: &[u8]) -> Option<usize>
    ensures { result ≡ size_of digits.now }
{
    let size = value_in(16, digits);
    if are_digits(16, digits) && 1 <= size && size <= 65_536 {
        Some(size as usize)
    } else {
        None
    }
}

/// A ROM of these devices, of as many words as digits say.
fn shape_with(devices: Devices, digits: &[u8]) -> Option<RomShape>
    ensures { result ≡ shape_with devices digits.now }
{
    match size_of(digits) {
        Some(size) => Some(RomShape { devices, size }),
        None => None,
    }
}

/// The ROM that a text asks for: `4000` two devices of 4000h bytes, `16:4000` one file of 4000h words with the high
/// byte of each first, `16low:4000` one with the low byte first. `None` where the text is none of these, or the size
/// is 0 or more than 10000h.
pub fn shape_of(text: &[u8]) -> Option<RomShape>
    ensures { result ≡ shape_of text.now }
{
    if text.starts_with(b"16:") {
        shape_with(Devices::File(ByteOrder::HighFirst), &text[3..])
    } else if text.starts_with(b"16low:") {
        shape_with(Devices::File(ByteOrder::LowFirst), &text[6..])
    } else {
        shape_with(Devices::Pair, text)
    }
}
