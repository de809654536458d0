//! Texts, and numbers in hexadecimal digits of upper case.

ghost use Rattle.std.specs.Prelude.{◌≡◌, ◌++◌, OnOk, string_bytes};
ghost use Rattle.std.specs.List.{flat_map};
ghost use Rattle.c25_meaning_common.specs.Digits.{four_digits, two_digits};
ghost use Rattle.c25_meaning_debugger.specs.Texts.{spaced};
ghost use Rattle.c25_meaning_linking.specs.MapText.{eight_digits};

use c25_meaning_common::no_memory::NoMemory;
use c25_texts::digits::{four, two};
use std::alloc::Global;

/// Appends a text.
pub(super) fn push_text(text: &mut String, piece: &str) -> Result<(), NoMemory>
    ensures { OnOk result (string_bytes text.new ≡ string_bytes text.old ++ piece.now) }
{
    Ok(text.push_str(piece)?)
}

/// Appends texts, one after another.
pub(super) fn push_texts(text: &mut String, pieces: &[&str]) -> Result<(), NoMemory>
    ensures { OnOk result (string_bytes text.new ≡ string_bytes text.old ++ flat_map (λ piece. piece.now) pieces.now) }
{
    for piece in pieces {
        push_text(text, piece)?;
    }
    Ok(())
}

/// Appends a byte in two digits.
pub(super) fn push_byte(text: &mut String, byte: u8) -> Result<(), NoMemory>
    ensures { OnOk result (string_bytes text.new ≡ string_bytes text.old ++ two_digits byte) }
{
    push_text(text, two(byte).as_str())
}

/// Appends a word in four digits.
pub(super) fn push_word(text: &mut String, word: u16) -> Result<(), NoMemory>
    ensures { OnOk result (string_bytes text.new ≡ string_bytes text.old ++ four_digits word) }
{
    push_text(text, four(word).as_str())
}

/// Appends a name, and a word in four digits.
pub(super) fn push_named(text: &mut String, name: &str, word: u16) -> Result<(), NoMemory>
    ensures { OnOk result (string_bytes text.new ≡ string_bytes text.old ++ (name.now ++ four_digits word)) }
{
    push_texts(text, &[name, four(word).as_str()])
}

/// Appends a name, and a number of 32 bits in eight digits.
#[tactic(auto, unfolding(c25_meaning_linking::specs::MapText::eight_digits))]
pub(super) fn push_named_long(text: &mut String, name: &str, number: u32) -> Result<(), NoMemory>
    ensures { OnOk result (string_bytes text.new ≡ string_bytes text.old ++ (name.now ++ eight_digits number)) }
{
    push_named(text, name, (number / 65_536) as u16)?;
    push_word(text, (number % 65_536) as u16)
}

/// Appends words, a blank before each.
pub(super) fn push_spaced(text: &mut String, words: &[u16]) -> Result<(), NoMemory>
    ensures { OnOk result (string_bytes text.new ≡ string_bytes text.old ++ spaced words.now) }
{
    for word in words {
        push_named(text, " ", *word)?;
    }
    Ok(())
}
