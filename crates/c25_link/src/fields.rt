//! The fields that relocations fill.

ghost use Rattle.std.specs.Prelude.{◌≡◌, ◌<◌, ◌^◌, negsuc, pos, ◌≤ℤ◌};
ghost use Rattle.c25_bits.specs.Cut.{cut};
ghost use Rattle.c25_meaning_common.specs.Fields.{field_number, takes, filled, is_within};
ghost use Rattle.c25_meaning_common.specs.Fields.{field_values};

use c25_meaning_common::relocation::RelocationKind;

/// The low sixteen bits of a value.
fn low16(value: i64) -> u16
    ensures { result ≡ cut value 16 }
{
    value.rem_euclid(65_536) as u16
}

/// The low seven bits of a value.
fn low7(value: i64) -> u16
    ensures { result ≡ cut value 7 }
{
    value.rem_euclid(128) as u16
}

/// The number that a field holds for a value: its low 16 or 7 bits, or the 9 bits above the low 7.
pub(crate) fn field_number(kind: RelocationKind, value: i64) -> u16
    ensures { result ≡ field_number kind value }
{
    match kind {
        RelocationKind::Word16 => low16(value),
        RelocationKind::Low7 => low7(value),
        RelocationKind::Page9 => low16(value) / 128,
    }
}

fn is_within(low: i64, high: i64, value: i64) -> bool
    ensures { result ≡ is_within low high value }
{
    !(value < low || high < value)
}

/// Whether a field takes a value without loss.
pub(crate) fn takes(kind: RelocationKind, value: i64) -> bool
    ensures { result ≡ takes kind value }
{
    match kind {
        RelocationKind::Word16 => is_within(-32_768, 65_535, value),
        RelocationKind::Low7 | RelocationKind::Page9 => is_within(0, 65_535, value),
    }
}

/// A word with a number in its field; all other bits stay.
pub(crate) fn filled(kind: RelocationKind, number: u16, word: u16) -> u16
    requires { number < field_values kind }
    ensures { result ≡ filled kind number word }
{
    match kind {
        RelocationKind::Word16 => number,
        RelocationKind::Low7 => word / 128 * 128 + number,
        RelocationKind::Page9 => word / 512 * 512 + number,
    }
}
