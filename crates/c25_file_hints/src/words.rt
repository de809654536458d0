//! The parts of a line.

ghost use Rattle.std.specs.Prelude.{◌≡◌, IfOk, map};
ghost use Rattle.c25_meaning_common.specs.Items.{line_words};

use c25_meaning_common::bytes::is_blank;
use std::alloc::{AllocError, Global};

/// The parts of a line: what its blanks and tabs part.
pub(crate) fn line_words(alloc: Global, line: &[u8]) -> Result<Vec<&[u8]>, AllocError>
    ensures { IfOk result (λ v. map (λ w. w.now) v.items ≡ line_words line.now) }
{
    line.split(|b| is_blank(*b))
        .filter(|word| word.len() != 0)
        .collect(alloc)
}
