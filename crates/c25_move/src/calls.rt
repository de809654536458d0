//! Which lines call macros.

ghost use Rattle.std.specs.Prelude.{◌≡◌, map};
ghost use Rattle.c25_move.specs.Promises.{calls, is_among};

use c25_text::first_word;

/// Whether a word is the name of one of these macros, byte for byte.
#[tactic(auto, unfolding(crate::specs::Promises::is_among))]
fn is_among(macros: &[&str], word: &str) -> bool
    ensures { result ≡ is_among (map (λ name. name.now) macros.now) word.now }
{
    for name in macros {
        if word == *name {
            return true;
        }
    }
    false
}

/// Whether the word of a line is the name of one of these macros.
pub(crate) fn is_call(macros: &[&str], line: &str) -> bool
    ensures { result ≡ calls (map (λ name. name.now) macros.now) line.now }
{
    match first_word(line) {
        Some(word) => is_among(macros, word),
        None => false,
    }
}
