//! A page of a program: its words and their hex text.

ghost use Rattle.std.specs.Prelude.{◌≡◌, IfOk, string_bytes};
ghost use Rattle.c25_hex.specs.HexText.{written};

use c25_hex::laws::one_text_spells_one_map;
use c25_hex::{read_hex, write_hex};
use c25_meaning_common::failure::Failure;
use c25_meaning_common::no_memory::NoMemory;
use c25_meaning_image::word_map::WordMap;
use std::alloc::Global;

/// The Intel hex text of a page, and the words that are read back from it.
#[derive(Drop)]
pub struct Page {
    pub text: String,
    pub words: WordMap,
}

/// Writes words as an Intel hex text, and reads them back. Reading has no fault here, since the text was
/// written from words.
pub(crate) fn page_of(alloc: Global, words: &WordMap) -> Result<Page, NoMemory>
    ensures text { IfOk result (λ page. string_bytes page.text ≡ written words.now) }
    ensures words { IfOk result (λ page. page.words ≡ words.now) }
{
    one_text_spells_one_map();
    let text = write_hex(alloc, words)?;
    match read_hex(alloc, text.as_str()) {
        Ok(words) => Ok(Page { text, words }),
        Err(Failure::NoMemory(error)) => Err(error),
        Err(Failure::Fault(_)) => unreachable!(),
    }
}
