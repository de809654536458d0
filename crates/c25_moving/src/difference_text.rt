//! What is reported where the words of the old program and those of the new one differ.

ghost use Rattle.std.specs.Prelude.{◌≡◌, ◌++◌, IfOk, OnOk, codes, string_bytes};
ghost use Rattle.std.specs.Option.{option_map};
ghost use Rattle.c25_meaning_common.specs.Digits.{four_digits};
ghost use Rattle.c25_meaning_instructions.specs.Show as meaning;
ghost use Rattle.c25_moving.specs.DifferenceText.{IsDifferenceText, IsShownAt, IsWordText, counted_text, first_text, is_long, line_before, line_near, source_text};

use crate::old_words::{OldWords, count_of};
use c25_isa::{decode, show};
use c25_link::Image;
use c25_meaning_common::no_memory::NoMemory;
use c25_meaning_image::mark::Mark;
use c25_meaning_image::word_map::WordMap;
use c25_meaning_instructions::insn::Insn;
use c25_texts::appending::push_texts;
use c25_texts::digits::four;
use itoa::Buffer;
use std::alloc::Global;

/// A word and the instruction that it begins.
fn read_text(alloc: Global, word: u16, insn: &Insn) -> Result<String, NoMemory>
    ensures { IfOk result (λ text. string_bytes text ≡ four_digits word ++ codes " " ++ meaning.show insn.now) }
{
    let shown = show(alloc, insn)?;
    let mut text = String::new(alloc);
    push_texts(&mut text, &[four(word).as_str(), " ", shown.as_str()])?;
    Ok(text)
}

/// A word, with the instruction that it and the word after it read as, if they do.
fn word_text(alloc: Global, first: u16, second: u16) -> Result<String, NoMemory>
    ensures { IfOk result (λ text. IsWordText first second (string_bytes text)) }
{
    match decode(first, second) {
        Some(insn) => read_text(alloc, first, &insn),
        None => Ok(String::from_str(alloc, four(first).as_str())?),
    }
}

/// What a program has at an address: a word, with the instruction that it begins, or none.
fn shown_at(alloc: Global, words: &WordMap, address: u16) -> Result<String, NoMemory>
    ensures { IfOk result (λ text. IsShownAt words.now address (string_bytes text)) }
{
    match words.get(address) {
        Some(word) => {
            let next = words.get(address.wrapping_add(1)).unwrap_or(0);
            word_text(alloc, word, next)
        }
        None => Ok(String::from_str(alloc, "no word")?),
    }
}

/// Whether an instruction of two words begins at an address.
fn is_long(marks: &[Mark], address: u16) -> bool
    ensures { result ≡ is_long marks.now address }
{
    marks
        .iter()
        .any(|mark| mark.address == address && mark.size == 2)
}

/// The line of the instruction whose second word is at an address, if it is known.
fn line_before(image: &Image, address: u16) -> Option<(&str, u32)>
    ensures { option_map (λ r. (r.0.now, r.1)) result ≡ line_before image.now address }
{
    if address > 0 && is_long(image.marks(), address - 1) {
        image.line_of(address - 1)
    } else {
        None
    }
}

/// The line of the instruction to which the word at an address belongs, if it is known.
fn line_near(image: &Image, address: u16) -> Option<(&str, u32)>
    ensures { option_map (λ r. (r.0.now, r.1)) result ≡ line_near image.now address }
{
    match image.line_of(address) {
        Some(line) => Some(line),
        None => line_before(image, address),
    }
}

/// Appends how many words differ, of how many of the old program.
fn push_counts(
    text: &mut String,
    name: &str,
    differing: usize,
    words: usize,
) -> Result<(), NoMemory>
    ensures { OnOk result (string_bytes text.new ≡ string_bytes text.old ++ counted_text name.now differing words) }
{
    let mut differing_digits = Buffer::new();
    let mut words_digits = Buffer::new();
    let differing = differing_digits.format(differing);
    let words = words_digits.format(words);
    push_texts(
        text,
        &[name, ": ", differing, " of ", words, " words differ"],
    )
}

/// Appends what stood and what stands at the first address where words differ.
fn push_first(text: &mut String, first: u16, was: &str, stands: &str) -> Result<(), NoMemory>
    ensures { OnOk result (string_bytes text.new ≡ string_bytes text.old ++ first_text first was.now stands.now) }
{
    push_texts(
        text,
        &[
            ", first at ",
            four(first).as_str(),
            ": old ",
            was,
            ", new ",
            stands,
        ],
    )
}

/// Appends the line of a source, if it is known, and the end of the line.
fn push_source(text: &mut String, source: Option<(&str, u32)>) -> Result<(), NoMemory>
    ensures { OnOk result (string_bytes text.new ≡ string_bytes text.old ++ source_text (option_map (λ r. (r.0.now, r.1)) source.entry)) }
{
    match source {
        None => push_texts(text, &["\n"]),
        Some((file, line)) => {
            let mut digits = Buffer::new();
            push_texts(text, &[", ", file, ":", digits.format(line), "\n"])
        }
    }
}

/// The line of the report where so many words differ, this one first.
pub(crate) fn difference_text(
    alloc: Global,
    old: OldWords<'_>,
    image: &Image,
    differing: usize,
    first: u16,
) -> Result<String, NoMemory>
    ensures { IfOk result (λ text. IsDifferenceText old.entry.name.now old.entry.words.now image.now differing first (string_bytes text)) }
{
    let was = shown_at(alloc, old.words, first)?;
    let stands = shown_at(alloc, image.words(0), first)?;
    let mut text = String::new(alloc);
    push_counts(&mut text, old.name, differing, count_of(old.words))?;
    push_first(&mut text, first, was.as_str(), stands.as_str())?;
    push_source(&mut text, line_near(image, first))?;
    Ok(text)
}
