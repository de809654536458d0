//! What a programmer of EPROMs shows of the bytes of a device.

ghost use Rattle.std.specs.Prelude.{◌≡◌};
ghost use Rattle.c25_rom.specs.Checks.{after_bit, after_byte, crc32, sum_of};

/// The polynomial of the CRC-32, with its bits in reverse and without that of the highest power.
const POLYNOMIAL: u32 = 0xEDB8_8320;

/// The sum of bytes, its low 16 bits.
pub fn sum_of(bytes: &[u8]) -> u16
    ensures { result ≡ sum_of bytes.now }
{
    let mut sum: u16 = 0;
    for byte in bytes {
        sum = sum.wrapping_add(u16::from(*byte));
    }
    sum
}

/// The remainder after one bit more.
#[tactic(auto, unfolding(crate::specs::Checks::after_bit))]
#[inline(always)]
fn after_bit(remainder: u32) -> u32
    ensures { result ≡ after_bit remainder }
{
    if remainder % 2 == 1 {
        (remainder / 2) ^ POLYNOMIAL
    } else {
        remainder / 2
    }
}

/// The remainder after a byte.
#[tactic(auto, unfolding(crate::specs::Checks::after_byte))]
fn after_byte(remainder: u32, byte: u8) -> u32
    ensures { result ≡ after_byte remainder byte }
{
    let mut after = remainder ^ u32::from(byte);
    for _ in 0..8_u32 {
        after = after_bit(after);
    }
    after
}

/// The CRC-32 of bytes, as IEEE 802.3, zlib and `srec_cat -crc32-l-e` have it.
#[tactic(auto, unfolding(crate::specs::Checks::crc32))]
pub fn crc32(bytes: &[u8]) -> u32
    ensures { result ≡ crc32 bytes.now }
{
    let mut remainder = u32::MAX;
    for byte in bytes {
        remainder = after_byte(remainder, *byte);
    }
    remainder ^ u32::MAX
}
