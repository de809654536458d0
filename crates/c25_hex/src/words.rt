//! The words of the bytes that a text gives.

ghost use Rattle.std.specs.Prelude.{◌≡◌, ◌+◌, ◌<◌, ◌^◌, length, IfOk, slice_index_or, None};
ghost use Rattle.c25_hex.specs.Hex as spec;
ghost use Rattle.c25_hex.specs.Cells.{cells_map};

use c25_meaning_common::no_memory::NoMemory;
use c25_meaning_image::word_list::WordList;
use c25_meaning_image::word_map::WordMap;
use std::alloc::Global;

fn word_of(high: Option<u8>, low: Option<u8>) -> Option<u16>
    ensures { result ≡ spec.word_of high low }
{
    match (high, low) {
        (Some(high), Some(low)) => Some(256 * high as u16 + low as u16),
        _ => None,
    }
}

/// The words of the bytes in cells, two cells a word.
pub(crate) fn words_of(alloc: Global, cells: &[Option<u8>]) -> Result<WordMap, NoMemory>
    requires { length cells.now ≡ 131072 }
    ensures { IfOk result (λ m. spec.HasWordsOf (cells_map cells.now) m) }
{
    let mut words = WordList::new(alloc);
    for i in 0..65_536 {
        match word_of(cells[2 * i], cells[2 * i + 1]) {
            Some(word) => words.push(i as u16, word)?,
            None => {}
        }
    }
    let map = words.into_map(alloc)?;
    Ok(map)
}
