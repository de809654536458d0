//! The hex text of words.

ghost use Rattle.std.specs.Prelude.{◌≡◌, IfOk, string_bytes};
ghost use Rattle.c25_hex.specs.Hex.{SpellsWords};
ghost use Rattle.c25_hex.specs.HexText.{written};

use crate::stretch::alone;
use crate::writer::Writer;
use c25_meaning_common::no_memory::NoMemory;
use c25_meaning_image::word_map::WordMap;
use std::alloc::Global;

/// The Intel hex text of words (Intel Hexadecimal Object File Format Specification, revision A): lines of at
/// most eight words, ascending, the line of the base before the first word at 8000h or above, and the end
/// line. Each line ends in LF, and digits are upper case. `NoMemory` where memory runs out.
pub fn write_hex(alloc: Global, words: &WordMap) -> Result<String, NoMemory>
    ensures written { IfOk result (λ text. string_bytes text ≡ written words.now) }
    ensures spelled { IfOk result (λ text. SpellsWords (string_bytes text) words.now) }
{
    let mut writer = Writer {
        text: String::new(alloc),
        has_base: false,
    };
    let mut entries = words.iter();
    match entries.next() {
        Some((address, word)) => writer.put_words(alloc, alone(*address, *word), entries)?,
        None => {}
    }
    writer.put_end(alloc)?;
    Ok(writer.text)
}
