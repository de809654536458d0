//! Tests of words by their addresses.

use crate::values::equal;
use c25_meaning_common::no_memory::NoMemory;
use c25_meaning_image::word_map::WordMap;

/// Sets two words, one of them twice.
fn set_words(words: &mut WordMap) -> Result<(), NoMemory> {
    words.insert(0xffff, 3)?;
    words.insert(7, 1)?;
    words.insert(7, 2)
}

#[test]
fn words_are_set_and_found(rt: HostRuntime) {
    let mut words = WordMap::new(rt.alloc());
    equal(&rt, words.get(0), None);
    equal(&rt, set_words(&mut words), Ok(()));
    equal(&rt, (words.get(7), words.get(8)), (Some(2), None));
    let mut entries = words.iter();
    equal(&rt, entries.next(), Some((&7, &2)));
    equal(&rt, entries.next(), Some((&0xffff, &3)));
    equal(&rt, entries.next(), None);
}
