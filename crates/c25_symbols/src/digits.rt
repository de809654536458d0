//! Values appended in hexadecimal digits.

ghost use Rattle.std.specs.Prelude.{◌≡◌, ◌++◌, OnOk, string_bytes};
ghost use Rattle.c25_symbols.specs.Text.{value_digits};

use c25_meaning_common::no_memory::NoMemory;
use c25_texts::appending::{push_eight, push_four};

/// Appends a value in four hexadecimal digits where it fits in 16 bits, else in eight.
#[tactic(auto, unfolding(c25_meaning_linking::specs::MapText::eight_digits))]
pub(crate) fn push_value(out: &mut String, value: u32) -> Result<(), NoMemory>
    ensures { OnOk result (string_bytes out.new ≡ string_bytes out.old ++ value_digits value) }
{
    if value < 65_536 {
        push_four(out, value as u16)
    } else {
        push_eight(out, value)
    }
}
