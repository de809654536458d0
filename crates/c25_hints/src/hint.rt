//! A remark on a refused line.

ghost use Rattle.std.specs.Prelude.{◌≡◌, IfOk, string_bytes};
ghost use Rattle.c25_hints.specs.Remark.{plain, about, naming};

use crate::cause::Cause;
use c25_meaning_common::no_memory::NoMemory;
use std::alloc::Global;

/// Why a line is refused, with the words that the remark names.
#[derive(Clone, Copy)]
pub struct Hint<'a> {
    pub cause: Cause,
    /// The word that is named within the sentence, or an empty text.
    pub word: &'a str,
    /// What stands after the sentence, as what to write; or an empty text.
    pub more: &'a str,
}

impl<'a> Hint<'a> {
    ghost use Rattle.c25_hints.specs.Remark.{remark_of, text_of};

    /// A remark that names no word.
    pub(crate) fn plain(cause: Cause) -> Hint<'a>
        ensures { remark_of result ≡ plain cause }
    {
        Hint {
            cause,
            word: "",
            more: "",
        }
    }

    /// A remark that names one word.
    pub(crate) fn about(cause: Cause, word: &'a str) -> Hint<'a>
        ensures { remark_of result ≡ about cause word.now }
    {
        Hint {
            cause,
            word,
            more: "",
        }
    }

    /// A remark that names a word, and has another text after its sentence.
    pub(crate) fn naming(cause: Cause, word: &'a str, more: &'a str) -> Hint<'a>
        ensures { remark_of result ≡ naming cause word.now more.now }
    {
        Hint { cause, word, more }
    }

    /// The text of the remark, one line without its end. `NoMemory` (9) where memory runs out.
    pub fn text(&self, alloc: Global) -> Result<String, NoMemory>
        ensures { IfOk result (λ text. string_bytes text ≡ text_of (remark_of self.now)) }
    {
        let mut text = String::from_str(alloc, self.cause.front())?;
        text.push_str(self.word)?;
        text.push_str(self.cause.back())?;
        text.push_str(self.more)?;
        Ok(text)
    }
}
