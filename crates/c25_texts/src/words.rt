//! The lines of a text, and the parts of a line.

ghost use Rattle.std.specs.Prelude.{◌≡◌, IfOk, map};
ghost use Rattle.std.specs.Str.{str_eq_ignore_ascii_case};
ghost use Rattle.std.specs.Str.Lines.{lines};
ghost use Rattle.c25_meaning_common.specs.Items.{line_words};

use c25_meaning_common::bytes::is_blank;
use std::alloc::{AllocError, Global};

/// The lines of a text, without the CR LF or LF that ends them.
pub(crate) fn lines_of(alloc: Global, text: &str) -> Result<Vec<&str>, AllocError>
    ensures { IfOk result (λ v. map (λ l. l.now) v.items ≡ lines text.now) }
{
    text.lines().collect(alloc)
}

/// The parts of a line: what its blanks and tabs part.
pub(crate) fn line_words(alloc: Global, line: &[u8]) -> Result<Vec<&[u8]>, AllocError>
    ensures { IfOk result (λ v. map (λ w. w.now) v.items ≡ line_words line.now) }
{
    line.split(|b| is_blank(*b))
        .filter(|word| word.len() != 0)
        .collect(alloc)
}

/// Whether a part of a line is this name, its letters in either case.
pub fn is_word(word: &[u8], name: &str) -> bool
    ensures { result ≡ str_eq_ignore_ascii_case word.now name.now }
{
    word.eq_ignore_ascii_case(name.as_bytes())
}
