//! The lines of a row.

ghost use Rattle.std.specs.Prelude.{◌≡◌, ◌++◌, OnOk, codes, string_bytes};
ghost use Rattle.std.specs.List.{flat_map};
ghost use Rattle.c25_meaning_common.specs.Digits.{four_digits};
ghost use Rattle.c25_meaning_instructions.specs.Show.{long_text};
ghost use Rattle.c25_layout.specs.SourceText.{further_text, item_text, label_text, load_line, row_text, words_text};

use crate::instruction_text::{push_named, push_plain, push_target};
use crate::layout::{Item, Row};
use c25_meaning_common::no_memory::NoMemory;
use c25_texts::appending::{push_four, push_text, push_texts};
use c25_texts::digits::four;
use std::alloc::Global;

/// Appends a word as a hexadecimal constant.
pub(crate) fn push_constant(text: &mut String, word: u16) -> Result<(), NoMemory>
    ensures { OnOk result (string_bytes text.new ≡ string_bytes text.old ++ long_text word) }
{
    push_texts(text, &["0", four(word).as_str(), "h"])
}

/// Appends a comma and a word.
fn push_further(text: &mut String, word: u16) -> Result<(), NoMemory>
    ensures { OnOk result (string_bytes text.new ≡ string_bytes text.old ++ further_text word) }
{
    push_text(text, ",")?;
    push_constant(text, word)
}

/// Appends words, each after a comma.
fn push_rest(text: &mut String, words: &[u16]) -> Result<(), NoMemory>
    ensures { OnOk result (string_bytes text.new ≡ string_bytes text.old ++ flat_map further_text words.now) }
{
    for word in words {
        push_further(text, *word)?;
    }
    Ok(())
}

/// Appends words with commas between them.
fn push_words(text: &mut String, words: &[u16]) -> Result<(), NoMemory>
    ensures { OnOk result (string_bytes text.new ≡ string_bytes text.old ++ words_text words.now) }
{
    match words {
        [] => Ok(()),
        [first, rest @ ..] => {
            push_constant(text, *first)?;
            push_rest(text, rest)
        }
    }
}

/// Appends what a row is.
fn push_item(alloc: Global, text: &mut String, item: &Item) -> Result<(), NoMemory>
    ensures { OnOk result (string_bytes text.new ≡ string_bytes text.old ++ item_text item.now) }
{
    match item {
        Item::Plain(insn) => push_plain(alloc, text, insn),
        Item::Named(insn, target) => push_named(alloc, text, insn, target),
        Item::Words(words) => {
            push_text(text, ".word ")?;
            push_words(text, words)
        }
        Item::Address(_, target) => {
            push_text(text, ".word ")?;
            push_target(text, target)
        }
    }
}

/// Appends the label of a line, if it has one.
fn push_label(text: &mut String, label: &Option<String>) -> Result<(), NoMemory>
    ensures { OnOk result (string_bytes text.new ≡ string_bytes text.old ++ label_text label.now) }
{
    match label {
        None => Ok(()),
        Some(name) => push_text(text, name),
    }
}

/// Appends the line that names where a row is loaded.
fn push_load_line(text: &mut String, label: &Option<String>) -> Result<(), NoMemory>
    ensures { OnOk result (string_bytes text.new ≡ string_bytes text.old ++ load_line label.now) }
{
    match label {
        None => Ok(()),
        Some(name) => push_texts(text, &["\t.label ", name, "\n"]),
    }
}

/// Appends the end of a line, with an address as a comment.
fn push_end(text: &mut String, address: u16) -> Result<(), NoMemory>
    ensures { OnOk result (string_bytes text.new ≡ string_bytes text.old ++ (codes "\t; " ++ four_digits address ++ codes "\n")) }
{
    push_text(text, "\t; ")?;
    push_four(text, address)?;
    push_text(text, "\n")
}

/// Appends the lines of a row.
pub(crate) fn push_row(alloc: Global, text: &mut String, row: &Row) -> Result<(), NoMemory>
    ensures { OnOk result (string_bytes text.new ≡ string_bytes text.old ++ row_text row.now) }
{
    push_load_line(text, &row.load_label)?;
    push_label(text, &row.label)?;
    push_text(text, "\t")?;
    push_item(alloc, text, &row.item)?;
    push_end(text, row.address)
}
