//! Why a line of samples is refused.

ghost use Rattle.std.specs.Prelude.{◌≡◌, IfOk, is_some, map};
ghost use Rattle.c25_meaning_common.specs.Digits.{decimal_of, hexadecimal_of};
ghost use Rattle.c25_meaning_common.specs.Items.{line_words};
ghost use Rattle.c25_file_hints.specs.Items.{first_failed, sample_cause, sample_parts_cause};

use crate::cause::Cause;
use crate::comments::or_comment;
use crate::words::line_words;
use c25_texts::{decimal_of, hexadecimal_of};
use std::alloc::{AllocError, Global};

/// Whether a part of a line is a port.
fn is_port(word: &[u8]) -> bool
    ensures { result ≡ is_some (decimal_of 15 word.now) }
{
    decimal_of(15, word).is_some()
}

/// Whether a part of a line is a word of four hexadecimal digits.
fn is_sample_word(word: &[u8]) -> bool
    ensures { result ≡ is_some (hexadecimal_of 4 word.now) }
{
    hexadecimal_of(4, word).is_some()
}

/// Why two parts are no sample.
fn pair_cause(port: &[u8], word: &[u8]) -> Option<Cause>
    ensures { result ≡ first_failed (is_some (decimal_of 15 port.now)) Cause.Port (is_some (hexadecimal_of 4 word.now)) Cause.Word }
{
    if !is_port(port) {
        Some(Cause::Port)
    } else if !is_sample_word(word) {
        Some(Cause::Word)
    } else {
        None
    }
}

/// Why parts are no sample, comments aside.
fn parts_cause(words: &[&[u8]]) -> Option<Cause>
    ensures { result ≡ sample_parts_cause (map (λ w. w.now) words.now) }
{
    match words {
        [] => None,
        [port, word] => pair_cause(port, word),
        _ => Some(Cause::SampleParts),
    }
}

/// Why a line of samples is refused; `None` where it is a sample or blank. `AllocError` where memory runs out.
pub fn sample_cause(alloc: Global, line: &str) -> Result<Option<Cause>, AllocError>
    ensures { IfOk result (λ cause. cause ≡ sample_cause (line_words line.now)) }
{
    let words = line_words(alloc, line.as_bytes())?;
    match parts_cause(words.as_slice()) {
        Some(cause) => Ok(Some(or_comment(words.as_slice(), cause))),
        None => Ok(None),
    }
}
