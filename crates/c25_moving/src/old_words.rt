//! The words of an old program.

ghost use Rattle.std.specs.Prelude.{◌≡◌};
ghost use Rattle.c25_moving.specs.Differing.{count_of};

use c25_meaning_image::word_map::WordMap;

/// The words of an old program, and the name of their file.
#[derive(Clone, Copy)]
pub struct OldWords<'a> {
    pub name: &'a str,
    pub words: &'a WordMap,
}

/// How many words a program has.
pub(crate) fn count_of(words: &WordMap) -> usize
    ensures { result ≡ count_of words.now }
{
    words.iter().count()
}
