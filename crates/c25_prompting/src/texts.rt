//! The texts of the files that sources are read from, kept for a session.

ghost use Rattle.std.specs.Prelude.{◌≡◌, ℕ, IfOk, List, string_bytes};
ghost use Rattle.c25_meaning_expansion.specs.Files.{file_name, text_named};
ghost use Rattle.c25_prompt_lines.specs.SourceTexts.{text_in};
ghost use Rattle.c25_prompting.specs.Texts.{text_or_nothing};

use c25_macro::files::Files;
use c25_meaning_common::no_memory::NoMemory;
use c25_prompt_lines::program::SourceText;
use std::alloc::Global;

/// The text of the file of this name; an empty text where there is none.
fn text_or_nothing<'a>(files: &'a Files, name: &str) -> &'a str
    ensures { result.now ≡ text_or_nothing files.entry.now name.entry.now }
{
    match files.text(name) {
        Some(text) => text,
        None => "",
    }
}

/// A copy of the text of the file of this number, with its name.
fn text_at(alloc: Global, files: &Files, number: usize) -> Result<SourceText, NoMemory>
    ensures name { IfOk result (λ t. string_bytes t.name ≡ file_name files.now number) }
    ensures text { IfOk result (λ t. string_bytes t.text ≡ text_or_nothing files.now (file_name files.now number)) }
{
    let named = files.name(number);
    let name = String::from_str(alloc, named)?;
    let text = String::from_str(alloc, text_or_nothing(files, named))?;
    Ok(SourceText { name, text })
}

/// Copies of the texts of files, with their names.
pub(crate) fn texts_of(alloc: Global, files: &Files) -> Result<Vec<SourceText>, NoMemory>
    ensures { IfOk result (λ texts. (name : List ℕ) → text_in texts.items name ≡ text_named files.now name) }
{
    let mut texts = Vec::new(alloc);
    for number in 0..files.len() {
        texts.push(text_at(alloc, files, number)?)?;
    }
    Ok(texts)
}
