//! Hex texts from outside: their sums were added up by hand.

use crate::values::equal;
use c25_hex::{read_hex, write_hex};
use c25_meaning_common::no_memory::NoMemory;
use c25_meaning_image::word_map::WordMap;
use std::alloc::Global;

/// A map of these words.
fn words_of(alloc: Global, entries: &[(u16, u16)]) -> Result<WordMap, NoMemory> {
    let mut words = WordMap::new(alloc);
    for (address, word) in entries {
        words.insert(*address, *word)?;
    }
    Ok(words)
}

/// Whether a map has these words, and no others.
fn are_words(words: &WordMap, entries: &[(u16, u16)]) -> bool {
    for (address, word) in entries {
        if words.get(*address) != Some(*word) {
            return false;
        }
    }
    words.iter().count() == entries.len()
}

/// Whether a text is read as these words.
fn is_read(alloc: Global, text: &str, entries: &[(u16, u16)]) -> bool {
    match read_hex(alloc, text) {
        Ok(words) => are_words(&words, entries),
        Err(_) => false,
    }
}

/// Whether words are written as this text, and the text is read back as the words.
fn goes_both_ways(alloc: Global, entries: &[(u16, u16)], lines: &str) -> Result<bool, NoMemory> {
    let words = words_of(alloc, entries)?;
    let text = write_hex(alloc, &words)?;
    Ok(text.as_str() == lines && is_read(alloc, lines, entries))
}

#[test]
fn words_are_written_and_read_back(rt: HostRuntime) {
    let alloc = rt.alloc();
    let found = [
        goes_both_ways(alloc, &[], ":00000001FF\n"),
        goes_both_ways(alloc, &[(0x20, 0x2405)], ":02004000240595\n:00000001FF\n"),
        goes_both_ways(
            alloc,
            &[(0, 0xca41), (1, 0x6060), (2, 0xe160), (3, 0xff80), (4, 3)],
            ":0A000000CA416060E160FF80000368\n:00000001FF\n",
        ),
        // The upper half has its own base.
        goes_both_ways(
            alloc,
            &[(0x8000, 0x2405)],
            ":020000040001F9\n:020000002405D5\n:00000001FF\n",
        ),
        goes_both_ways(
            alloc,
            &[(0x7fff, 0x2405), (0x8000, 0x2405), (0x8002, 0x2405)],
            ":02FFFE002405D8\n:020000040001F9\n:020000002405D5\n:020004002405D1\n:00000001FF\n",
        ),
    ];
    equal(&rt, found, [Ok(true); 5]);
}
