//! The words of the old program, compared with those of the program of the new sources.

ghost use Rattle.std.specs.Prelude.{◌≡◌, ◌++◌, IfOk, codes, false, map, string_bytes};
ghost use Rattle.c25_chain.specs.FaultText.{fault_text};
ghost use Rattle.c25_moving.specs.Compared.{Compares, IsComparison, all_same};

use crate::difference_text::difference_text;
use crate::differing::differing;
use crate::old_words::{OldWords, count_of};
use c25_chain::fault::Fault;
use c25_chain::{build, write_fault};
use c25_link::Image;
use c25_macro::files::Files;
use c25_meaning_common::no_memory::NoMemory;
use c25_texts::appending::push_texts;
use itoa::Buffer;
use std::alloc::Global;

/// What is reported of a comparison, and whether all words are the same.
#[derive(Drop)]
pub struct Comparison {
    pub text: String,
    pub is_same: bool,
}

/// The line that says that all words are the same.
fn all_same(alloc: Global, name: &str, words: usize) -> Result<String, NoMemory>
    ensures { IfOk result (λ text. string_bytes text ≡ all_same name.now words) }
{
    let mut digits = Buffer::new();
    let mut text = String::new(alloc);
    push_texts(
        &mut text,
        &[
            name,
            ": all ",
            digits.format(words),
            " words are the same\n",
        ],
    )?;
    Ok(text)
}

/// The words of an old program, compared with those of an image.
fn compare_words(alloc: Global, old: OldWords<'_>, image: &Image) -> Result<Comparison, NoMemory>
    ensures { IfOk result (IsComparison old.entry.name.now old.entry.words.now image.now) }
{
    let differing = differing(alloc, old.words, image.words(0))?;
    match differing.as_slice() {
        [] => Ok(Comparison {
            text: all_same(alloc, old.name, count_of(old.words))?,
            is_same: true,
        }),
        [first, ..] => Ok(Comparison {
            text: difference_text(alloc, old, image, differing.len(), *first)?,
            is_same: false,
        }),
    }
}

/// What is reported where the new sources have no program.
fn not_compared(alloc: Global, name: &str, fault: &Fault) -> Result<Comparison, NoMemory>
    ensures same { IfOk result (λ c. c.is_same ≡ false) }
    ensures text { IfOk result (λ c. string_bytes c.text ≡ fault_text fault.now ++ codes "\n" ++ name.now ++ codes ": not compared\n") }
{
    let mut text = write_fault(alloc, fault)?;
    push_texts(&mut text, &["\n", name, ": not compared\n"])?;
    Ok(Comparison {
        text,
        is_same: false,
    })
}

/// The words of an old program, compared with those of the program of new sources among files, under a command file.
pub(crate) fn compare(
    alloc: Global,
    old: OldWords<'_>,
    files: &Files,
    sources: &[String],
    command: &str,
) -> Result<Comparison, NoMemory>
    ensures { IfOk result (Compares old.entry.name.now old.entry.words.now files.now (map string_bytes sources.now) command.now) }
{
    match build(alloc, files, sources, command) {
        Ok(built) => compare_words(alloc, old, &built.linked.image),
        Err(fault) => not_compared(alloc, old.name, &fault),
    }
}
