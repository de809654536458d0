//! The text of the words of a hex text, by their addresses.

ghost use Rattle.std.specs.Prelude.{◌≡◌, ◌+◌, ◌≤◌, ◌++◌, ℕ, List, OnOk, IfOk, None, string_bytes};
ghost use Rattle.c25_dis.specs.Lines.{IsCode};
ghost use Rattle.c25_dis.specs.Words.{gap_text, is_before, word_at, IsAddressText, IsTaken, IsWordLine, IsWordsText};
ghost use Rattle.c25_meaning_instructions.specs.declared.insn.Insn.{Insn};

use crate::instruction_reader::instruction;
use crate::line::{Code, push_line};
use c25_meaning_common::no_memory::NoMemory;
use c25_meaning_image::word_map::WordMap;
use c25_meaning_instructions::insn::Insn;
use c25_texts::appending::push_text;
use std::alloc::Global;

/// What a word is taken for: an instruction, with a second word if it has one, or data.
struct Taken {
    second: Option<u16>,
    insn: Option<Insn>,
}

/// How a word is taken that is not an instruction alone: with the next one, if both are an instruction, else
/// as data.
fn read_two(word: u16, next: Option<u16>) -> Taken
    requires { (i : Insn) → IsCode word None i → ⊥ }
    ensures { IsTaken word next result.second result.insn }
{
    match next {
        None => Taken {
            second: None,
            insn: None,
        },
        Some(second) => match instruction(word, Some(second)) {
            Some(insn) => Taken {
                second: Some(second),
                insn: Some(insn),
            },
            None => Taken {
                second: None,
                insn: None,
            },
        },
    }
}

/// How a word is taken, where the next one is given, if there is one.
fn read_word(word: u16, next: Option<u16>) -> Taken
    ensures { IsTaken word next result.second result.insn }
{
    match instruction(word, None) {
        Some(insn) => Taken {
            second: None,
            insn: Some(insn),
        },
        None => read_two(word, next),
    }
}

/// The word at an address, if there is one.
fn word_at(words: &WordMap, address: u32) -> Option<u16>
    ensures { result ≡ word_at words.now address }
{
    if address < 65_536 {
        words.get(address as u16)
    } else {
        None
    }
}

/// Whether an address lies before the end of the last line, so that the line has its word.
fn is_before(address: u32, end: Option<u32>) -> bool
    ensures { result ≡ is_before address end }
{
    match end {
        None => false,
        Some(end) => address < end,
    }
}

/// Appends an empty line, unless the next line begins where the last one ended.
fn push_gap(text: &mut String, end: Option<u32>, address: u32) -> Result<(), NoMemory>
    ensures { OnOk result (string_bytes text.new ≡ string_bytes text.old ++ gap_text end address) }
{
    match end {
        None => Ok(()),
        Some(end) => {
            if end == address {
                Ok(())
            } else {
                push_text(text, "\n")
            }
        }
    }
}

/// Appends the line of the first of two words, the second of which there may be, and returns the address where
/// the line ends.
fn push_word_line(
    alloc: Global,
    text: &mut String,
    words: (u16, Option<u16>),
    address: u32,
    end: Option<u32>,
) -> Result<Option<u32>, NoMemory>
    requires { address ≤ 65536 }
    ensures { IfOk result (λ after. (line : List ℕ) × IsWordLine words.1 address words.0 end after line
        × (string_bytes text.new ≡ string_bytes text.old ++ line)) }
{
    push_gap(text, end, address)?;
    let (first, next) = words;
    let Taken { second, insn } = read_word(first, next);
    let code = Code {
        first,
        second,
        insn,
    };
    push_line(alloc, text, address as usize, &code)?;
    push_text(text, "\n")?;
    match second {
        None => Ok(Some(address + 1)),
        Some(_) => Ok(Some(address + 2)),
    }
}

/// Appends the line that begins at an address, if one does, and returns the address where the last line ends.
fn push_address_text(
    alloc: Global,
    text: &mut String,
    words: &WordMap,
    address: u32,
    end: Option<u32>,
) -> Result<Option<u32>, NoMemory>
    requires { address ≤ 65536 }
    ensures { IfOk result (λ after. (own : List ℕ)
        × IsAddressText (word_at words.now address) (word_at words.now (address + 1)) (is_before address end) address end after own
        × (string_bytes text.new ≡ string_bytes text.old ++ own)) }
{
    match word_at(words, address) {
        None => Ok(end),
        Some(word) => {
            if is_before(address, end) {
                Ok(end)
            } else {
                let pair = (word, word_at(words, address + 1));
                push_word_line(alloc, text, pair, address, end)
            }
        }
    }
}

/// The text of words from an address on, read in the order of their addresses. Where a word, or a word and
/// the next one, are an instruction's, it is a line of the address, those words and the instruction as the
/// assembler reads it, and the reading goes on after it; else a line of the address and the word as data,
/// `.word 05541h`. An empty line stands before a line that does not begin right after the words of the line
/// before it. Addresses and words are hexadecimal.
///
/// `NoMemory` where memory runs out.
pub fn disassemble_words(alloc: Global, words: &WordMap, from: u16) -> Result<String, NoMemory>
    ensures { IfOk result (λ text. IsWordsText words.now from (string_bytes text)) }
{
    let mut text = String::new(alloc);
    let mut end = None;
    for passed in 0..65_536 - u32::from(from) {
        end = push_address_text(alloc, &mut text, words, u32::from(from) + passed, end)?;
    }
    Ok(text)
}
